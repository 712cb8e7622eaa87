//! Laws of devices, for callers' proofs, which have no other way to them. The functions do nothing: each one's contract is
//! a law.
ghost use Rattle.std.specs.Prelude.{◌++◌, List, ℕ, [], Option};
ghost use Rattle.std.specs.Io.KnownBytes.{Appends};
ghost use Rattle.image_streams.specs.Outgoing.{Sends, TakesBeginning};

/// Bytes that are sent piece by piece, while some of them are still held: what a device took in several calls, up to the
/// first that failed.
pub fn pieces_sent()
    ensures nothing { (took : Option (List ℕ)) (held : List ℕ) → Sends took took held held [] }
    ensures given { (before after : Option (List ℕ)) (bytes : List ℕ) → Appends before after bytes
        → Sends before after [] [] bytes }
    ensures in_turn { (before between after : Option (List ℕ)) (held kept holds bytes more : List ℕ) → Sends before between held kept bytes
        → Sends between after kept holds more → Sends before after held holds (bytes ++ more) }
    ensures flushed { (before between after : Option (List ℕ)) (held bytes : List ℕ)
        → Sends before between [] held bytes → Appends between after held → Appends before after bytes }
    ensures beginning { (before after : Option (List ℕ)) (bytes more : List ℕ) → TakesBeginning before after bytes
        → TakesBeginning before after (bytes ++ more) }
    ensures cut_off { (before between after : Option (List ℕ)) (held bytes piece more : List ℕ) → Sends before between [] held bytes
        → TakesBeginning between after (held ++ piece) → TakesBeginning before after (bytes ++ (piece ++ more)) }
{}
