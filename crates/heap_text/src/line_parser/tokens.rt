//! Splits a line at its spaces, and parses numbers, addresses and references.
ghost use Rattle.std.specs.Prelude.{◌≡◌, ◌+◌, ◌≤◌, ◌<◌, ◌^◌, ◌++◌, ◌∷◌, [], ℕ, List, Some, None, IfSome, OnSome, length, codes, decimal, option_map, slice_index, flat_map, ◌≢◌, IsTrue, IsSomeAnd, true, false};
ghost use Rattle.std.specs.List.{AllByRecursion};
ghost use Rattle.heap_text.specs.Text.{number_text, reference_text};
ghost use Rattle.heap_text.specs.Words.{references_part, data_part};
ghost use Rattle.heap_text.specs.Tokens.{IsToken, IsAfterToken, reference_word};

/// A number of so many digits is below 2^64.
const SAFE_DIGITS: usize = 19;

/// The tokens of a line after its first one, each preceded by one space.
#[derive(Drop)]
pub(crate) struct Tokens<'a> {
    /// The rest of the line: empty, or a space and more.
    rest: &'a [u8],
}

impl<'a> Tokens<'a> {
    /// Returns the first token of a line, and the others.
    pub(crate) fn of(line: &'a [u8]) -> (&'a [u8], Tokens<'a>)
        ensures split { (token rest : List ℕ) → IsToken token → IsAfterToken rest → line.now ≡ token ++ rest
            → (result.0.now ≡ token) × (result.1.rest.now ≡ rest) }
    {
        let (token, rest) = split_at_space(line);
        (token, Tokens { rest })
    }

    /// Returns the next token.
    pub(crate) fn next_token(&mut self) -> Option<&'a [u8]>
        ensures none { self.old.rest.now ≡ [] → (result ≡ None) × (self.new.rest.now ≡ []) }
        ensures some { (token rest : List ℕ) → IsToken token → IsAfterToken rest → self.old.rest.now ≡ 32 ∷ (token ++ rest)
            → (option_map (λ t. t.now) result ≡ Some token) × (self.new.rest.now ≡ rest) }
        ensures less { OnSome result (length self.new.rest.now < length self.old.rest.now) }
    {
        let (_space, after) = self.rest.split_first()?;
        let (token, rest) = split_at_space(after);
        self.rest = rest;
        Some(token)
    }

    /// Whether no token is left.
    pub(crate) fn is_empty(&self) -> bool
        ensures some { result ≡ false → self.now.rest.now ≢ [] }
        ensures none { result ≡ true → self.now.rest.now ≡ [] }
    {
        self.rest.is_empty()
    }

    /// Returns the number of the next token, or `None` if that is no number or there is none.
    pub(crate) fn next_number(&mut self) -> Option<u64>
        ensures number { (n : ℕ) (rest : List ℕ) → n < 2 ^ 64 → IsAfterToken rest → self.old.rest.now ≡ number_text n ++ rest
            → (result ≡ Some n) × (self.new.rest.now ≡ rest) }
        ensures less { OnSome result (length self.new.rest.now < length self.old.rest.now) }
    {
        let (_space, after) = self.rest.split_first()?;
        let (number, rest) = leading_number(after)?;
        self.rest = rest;
        Some(number)
    }

    /// Returns the number of the next token if it is 1 to `most`, else `None`.
    pub(crate) fn next_count(&mut self, most: u64) -> Option<u64>
        ensures within { IfSome result (λ n. (1 ≤ n) × (n ≤ most)) }
        ensures accepts { (n : ℕ) (rest : List ℕ) → 1 ≤ n → n ≤ most → n < 2 ^ 64 → IsAfterToken rest → self.old.rest.now ≡ number_text n ++ rest
            → (result ≡ Some n) × (self.new.rest.now ≡ rest) }
    {
        let Some(count) = self.next_number() else {
            return None;
        };
        if is_within(count, most) {
            Some(count)
        } else {
            None
        }
    }

    /// Returns the reference of the next token in a heap of `len` words, or `None` if that is no reference or there is none.
    pub(crate) fn next_reference(&mut self, len: u64) -> Option<u64>
        requires { len ≤ 68719476736 }
        ensures { (w : ℕ) (rest : List ℕ) → w ≤ len → IsAfterToken rest → self.old.rest.now ≡ reference_text w ++ rest
            → (result ≡ Some w) × (self.new.rest.now ≡ rest) }
    {
        match self.next_token() {
            Some(token) => parse_reference(token, len),
            None => None,
        }
    }

    /// Returns the number of references after `refs`, up to `data` or the end of the line, or 0 if another token comes first.
    pub(crate) fn count_references(&self) -> u64
        ensures { (len : ℕ) (refs others : List ℕ) → len ≤ 68719476736 → AllByRecursion (λ w. w ≤ len) refs
            → self.now.rest.now ≡ references_part refs ++ data_part others → result ≡ length refs }
    {
        let mut tokens = Tokens { rest: self.rest };
        let Some(name) = tokens.next_token() else {
            return 0;
        };
        if name == b"refs".as_slice() {
            return tokens.count_to_data();
        }
        0
    }

    /// Returns the number of tokens up to `data` or the end of the line.
    fn count_to_data(mut self) -> u64
        ensures { (len : ℕ) (refs others : List ℕ) → len ≤ 68719476736 → AllByRecursion (λ w. w ≤ len) refs
            → self.entry.rest.now ≡ flat_map reference_text refs ++ data_part others → result ≡ length refs }
    {
        let mut count = 0;
        while let Some(token) = self.next_token() {
            if token == b"data".as_slice() {
                return count;
            }
            count += 1;
        }
        count
    }
}

/// Splits the bytes before the first space, which the second part keeps.
fn split_at_space(bytes: &[u8]) -> (&[u8], &[u8])
    ensures less { length result.1.now ≤ length bytes.now }
    ensures split { (token rest : List ℕ) → IsToken token → IsAfterToken rest → bytes.now ≡ token ++ rest
        → (result.0.now ≡ token) × (result.1.now ≡ rest) }
{
    for (i, byte) in bytes.iter().enumerate() {
        if *byte == b' ' {
            return bytes.split_at(i);
        }
    }
    (bytes, &[])
}

/// Parses the number at the beginning, which is below 2^64 and has no leading zeros. Returns what follows it, too: nothing,
/// or a space and more.
fn leading_number(bytes: &[u8]) -> Option<(u64, &[u8])>
    ensures less { IfSome result (λ parts. length parts.1.now ≤ length bytes.now) }
    ensures number { (n : ℕ) (rest : List ℕ) → n < 2 ^ 64 → IsAfterToken rest → bytes.now ≡ decimal n ++ rest
        → IsSomeAnd result (λ parts. (parts.0 ≡ n) × (parts.1.now ≡ rest)) }
{
    let most = bytes.len().min(SAFE_DIGITS);
    let mut number = 0u64;
    let mut count = 0;
    while count < most && bytes[count].is_ascii_digit() {
        number = number * 10 + u64::from(bytes[count] - b'0');
        count += 1;
    }
    if count < bytes.len() && bytes[count].is_ascii_digit() {
        let digit = u64::from(bytes[count] - b'0');
        let longer = number.checked_mul(10)?.checked_add(digit)?;
        return number_before(bytes, count + 1, longer);
    }
    number_before(bytes, count, number)
}

/// Returns a number of `count` digits and what follows them, or `None` if they begin with a needless zero, are none, or
/// aren't a whole token.
fn number_before(bytes: &[u8], count: usize, number: u64) -> Option<(u64, &[u8])>
    requires { count ≤ length bytes.now }
    ensures less { IfSome result (λ parts. length parts.1.now ≤ length bytes.now) }
    ensures number { (n : ℕ) (rest : List ℕ) → n < 2 ^ 64 → IsAfterToken rest → bytes.now ≡ decimal n ++ rest
        → count ≡ length (decimal n) → IsSomeAnd result (λ parts. (parts.0 ≡ number) × (parts.1.now ≡ rest)) }
{
    if count == 0 {
        return None;
    }
    if count > 1 && bytes[0] == b'0' {
        return None;
    }
    let rest = &bytes[count..];
    if rest.is_empty() || rest[0] == b' ' {
        return Some((number, rest));
    }
    None
}

/// Whether a count is 1 to `most`.
fn is_within(count: u64, most: u64) -> bool
    ensures within { IsTrue result → (1 ≤ count) × (count ≤ most) }
    ensures all { 1 ≤ count → count ≤ most → result ≡ true }
{
    1 <= count && count <= most
}

/// Parses a decimal number below 2^64 without leading zeros.
pub(crate) fn parse_number(token: &[u8]) -> Option<u64>
    ensures { (n : ℕ) → n < 2 ^ 64 → token.now ≡ decimal n → result ≡ Some n }
{
    let (first, others) = token.split_first()?;
    if *first == b'0' && !others.is_empty() {
        return None;
    }
    let mut number = 0u64;
    for byte in token {
        if !byte.is_ascii_digit() {
            return None;
        }
        number = number
            .checked_mul(10)?
            .checked_add(u64::from(*byte - b'0'))?;
    }
    Some(number)
}

/// Parses `@` and an address.
pub(crate) fn parse_address(token: &[u8]) -> Option<u64>
    ensures address { (n : ℕ) → n < 2 ^ 64 → token.now ≡ 64 ∷ decimal n → result ≡ Some n }
    ensures other { slice_index token.now 0 ≢ 64 → result ≡ None }
{
    match token.split_first() {
        Some((b'@', digits)) => parse_number(digits),
        _ => None,
    }
}

/// Parses a reference or a root in a heap of `len` words. The result is 0 for `null`, else 1 plus the address.
pub(crate) fn parse_reference(token: &[u8], len: u64) -> Option<u64>
    ensures reference { (w : ℕ) → w ≤ len → token.now ≡ reference_word w → result ≡ Some w }
    ensures data { token.now ≡ codes "data" → result ≡ None }
{
    if token == b"null".as_slice() {
        return Some(0);
    }
    match parse_address(token) {
        Some(address) if address < len => Some(address + 1),
        _ => None,
    }
}

/// Parses a line that consists of a label and a number.
pub(crate) fn parse_labelled(line: &[u8], label: &[u8]) -> Option<u64>
    ensures { (n : ℕ) → n < 2 ^ 64 → line.now ≡ label.now ++ decimal n → result ≡ Some n }
{
    parse_number(line.strip_prefix(label)?)
}
