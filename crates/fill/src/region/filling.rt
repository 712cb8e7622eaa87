ghost use Rattle.std.specs.Prelude.{◌≡◌, ℕ, ◌<◌, ◌≤◌, ◌^◌, false, []};
ghost use Rattle.std.specs.Box.{box_allocator};
ghost use Rattle.std.proofs.Props.{props};
ghost use Rattle.object_heap.specs.HeapImage.{region_count};
ghost use Rattle.summary.specs.NewAddresses.{prefix_end};
ghost use Rattle.summary.specs.WordMoves.{reads};
ghost use Rattle.summary.specs.RegionData.{fill_count};
ghost use Rattle.scheduler.specs.ImageMoves.{image_table};
ghost use Rattle.claim_board.specs.Boards.{board_of, caller, held};
ghost use Rattle.claim_board.specs.RegionBoards.{moves as moves_of, identity, original_words, moved_words, spot, Holds};
ghost use Rattle.claim_board.specs.Tickets.{IsUnused, IsTicketOf, IsDoneOf};
ghost use Rattle.fill.specs.WordBlocks.{Shows};
ghost use Rattle.fill.specs.SlidWords.{slid_word};
ghost use Rattle.fill.specs.WrittenWords.{IsBlockOf, IsUnwritten};
ghost use Rattle.fill.specs.KeptImages.{Keeps};
ghost use Rattle.fill.specs.FillTickets.{IsUnopened, IsSpent};
ghost use Rattle.fill.specs.SourceDrains.{ReportsLast, other_sources_below, HasDrained, HasFilled};

use super::after_prefix::AfterPrefix;
use super::guide::Guide;
use super::site::Site;
use box_row::InRow;
use claim_board::{
    Desk, Done, Drained, RegionTicket, Seat, calls_of_passes_are_gained,
    one_more_source_is_drained, other_calls_leave_what_is_held, swept_tickets_have_none_left,
};
use raw_region::Region;
use scheduler::moves_of_images;
use summary::Survey;
use summary::laws::plan_laws;
use summary::laws::readers::reads_by_words;
use summary::laws::region_data::regions_to_fill;

/// What all fills of one collection share: the desk, whose board keeps the regions, the survey of an image, and what the desk
/// may need to wait.
///
/// The survey says where live words lie and where they go. The words are those that the board keeps: the image's own, or
/// those of opaque objects, which lie where the image's objects do.
#[derive(Drop)]
pub struct Filler<'a, D: Desk<W>, W> {
    pub desk: &'a D,
    pub survey: &'a Survey,
    pub wait: &'a W,
    /// Whether objects have headers, and references to redirect; opaque ones have neither.
    pub redirects: bool,
    /// The board keeps the surveyed image, or opaque objects in its places.
    pub ghost keeps: { Keeps redirects survey.now (D.keeps desk.now) } by { Prim.hlevel props },
}

impl<D: Desk<W>, W> Filler<'_, D, W> {
    /// Fills a region that was claimed from the desk with its moved words, and completes it.
    ///
    /// Writes the region's own words first. Then it opens, copies and drains each other source, in ascending order, and
    /// calls `on_last` with the source's number after each drain that returned `Last`. Before each drain and before the
    /// completion it notes at the desk how many words it has written.
    pub fn fill_region<F: FnMut(u32)>(
        &self,
        seat: &mut Seat,
        claimed: (RegionTicket, Box<Region, InRow>),
        on_last: &mut F,
    ) -> Done
        requires board { board_of seat.old.pass ≡ identity (D.keeps self.now.desk.now) }
        requires callable { F.IsAlwaysCallable on_last.old }
        requires region { claimed.0.ticket.region < fill_count self.now.survey.now }
        requires unused { IsUnused claimed.0.ticket }
        requires ticket { IsTicketOf (moves_of (D.keeps self.now.desk.now)) (caller seat.old.pass) claimed.0.ticket }
        requires holds { Holds (D.keeps self.now.desk.now) claimed.0 seat.old.pass }
        requires words { claimed.1.value ≡ original_words (D.keeps self.now.desk.now) claimed.0.ticket.region }
        requires place { box_allocator claimed.1 ≡ spot (D.keeps self.now.desk.now) claimed.0.ticket.region }
        ensures number { seat.new.number ≡ seat.old.number }
        ensures callable { F.IsAlwaysCallable on_last.new }
        ensures filled { HasFilled (λ f s f'. F.step f s tt f') (image_table self.now.survey.now) claimed.0.ticket.region (caller seat.old.pass) (caller seat.new.pass) on_last.old on_last.new }
        ensures done { (result.region ≡ claimed.0.ticket.region) × IsDoneOf (caller seat.new.pass) result }
        ensures bare { held seat.new.pass ≡ [] }
    {
        moves_of_images();
        calls_of_passes_are_gained();
        other_calls_leave_what_is_held();
        let (mut ticket, mut words) = claimed;
        let guide = Guide::new(self.survey);
        let filling = Filling {
            desk: self.desk,
            site: Site::of(&guide, ticket.region()),
            wait: self.wait,
            redirects: self.redirects,
        };
        let Some(right) = ticket.right() else {
            unreachable!();
        };
        filling.fill(seat, &mut ticket, &mut *words, on_last);
        let written = right.written();
        self.desk
            .complete(seat, ticket, (written, words), self.wait)
    }
}

/// One fill: the region, and what it shares with the other fills.
#[derive(Drop)]
struct Filling<'d, 's, 'w, D: Desk<W>, W> {
    desk: &'d D,
    site: Site<'s>,
    wait: &'w W,
    redirects: bool,
    ghost keeps: { Keeps redirects site.guide.now (D.keeps desk.now) } by { Prim.hlevel props },
}

impl<D: Desk<W>, W> Filling<'_, '_, '_, D, W> {
    /// Writes the region's moved words, and drains its other sources.
    ///
    /// After the prefix, the region's own words are written first, then those of each other source, in ascending order;
    /// a source is drained as soon as it is copied. The references are redirected last, if there are any.
    fn fill<F: FnMut(u32)>(
        &self,
        seat: &mut Seat,
        ticket: &mut RegionTicket,
        words: &mut Region,
        on_last: &mut F,
    )
        requires board { board_of seat.old.pass ≡ identity (D.keeps self.now.desk.now) }
        requires callable { F.IsAlwaysCallable on_last.old }
        requires ticket { IsUnopened (moves_of (D.keeps self.now.desk.now)) (caller seat.old.pass) self.now.site.region ticket.old.ticket }
        requires holds { Holds (D.keeps self.now.desk.now) ticket.old seat.old.pass }
        requires words { IsUnwritten (original_words (D.keeps self.now.desk.now)) self.now.site.region words.old }
        ensures number { seat.new.number ≡ seat.old.number }
        ensures callable { F.IsAlwaysCallable on_last.new }
        ensures ticket { IsSpent (moves_of (D.keeps self.now.desk.now)) (caller seat.new.pass) ticket.old.ticket ticket.new.ticket }
        ensures holds { Holds (D.keeps self.now.desk.now) ticket.new seat.new.pass }
        ensures drained { HasDrained (λ f s f'. F.step f s tt f') (image_table self.now.site.guide.now) self.now.site.region (region_count self.now.site.guide.now) (caller seat.old.pass) (caller seat.new.pass) on_last.old on_last.new }
        ensures moved { words.new ≡ moved_words (D.keeps self.now.desk.now) self.now.site.region }
    {
        plan_laws();
        moves_of_images();
        calls_of_passes_are_gained();
        one_more_source_is_drained();
        swept_tickets_have_none_left();
        if self.site.span.start < self.site.guide.prefix_end() {
            self.fill_in_prefix(seat, ticket, words);
            return;
        }
        let board = self.desk.board();
        let place = self.site.after_prefix(board);
        let plan = self.site.guide.plan();
        let mut from = self.site.region + 1;
        let mut to = place.slide_own(words);
        self.note(seat, ticket, to - self.site.span.start);
        while let Some((opening, share)) = board.open(&mut seat.pass, ticket, plan) {
            let s = opening.source();
            let end = place.copy_source(share.get(), s, words, to);
            self.note(seat, ticket, end - to);
            let answer = self
                .desk
                .drain(seat, ticket, (opening.close(), share), self.wait);
            report_last(on_last, s, answer);
            from = s + 1;
            to = end;
        }
        self.finish(&place, words, from);
    }

    /// Redirects the references of a region after the prefix, if its objects have any. All words for it are copied, and the
    /// regions from `from` on have none.
    fn finish(&self, place: &AfterPrefix<'_>, words: &mut Region, from: u32)
        requires site { place.now.site ≡ self.now.site }
        requires own { self.now.site.region < from }
        requires within { from ≤ region_count self.now.site.guide.now }
        requires last { (t : ℕ) → from ≤ t → t < region_count self.now.site.guide.now → reads self.now.site.guide.now self.now.site.region t ≡ false }
        requires block { IsBlockOf self.now.site.guide.now words.old }
        requires slid { Shows (slid_word self.now.site.guide.now (original_words (D.keeps self.now.desk.now))) self.now.site.span.start words.old }
        ensures { words.new ≡ moved_words (D.keeps self.now.desk.now) self.now.site.region }
    {
        plan_laws();
        self.site.guide.image_is_valid();
        if self.redirects {
            place.redirect_objects(words, from);
        }
    }

    /// Fills a region that begins in the prefix, which has no other source. One of opaque objects is left as it is.
    fn fill_in_prefix(&self, seat: &Seat, ticket: &RegionTicket, words: &mut Region)
        requires in_prefix { self.now.site.span.start < prefix_end self.now.site.guide.now }
        requires ticket { IsUnopened (moves_of (D.keeps self.now.desk.now)) (caller seat.now.pass) self.now.site.region ticket.now.ticket }
        requires words { IsUnwritten (original_words (D.keeps self.now.desk.now)) self.now.site.region words.old }
        ensures no_source { other_sources_below (image_table self.now.site.guide.now) self.now.site.region (region_count self.now.site.guide.now) ≡ [] }
        ensures none_left { ticket.now.ticket.left ≡ 0 }
        ensures moved { words.new ≡ moved_words (D.keeps self.now.desk.now) self.now.site.region }
    {
        plan_laws();
        moves_of_images();
        reads_by_words();
        swept_tickets_have_none_left();
        self.site.guide.image_is_valid();
        let written = if self.redirects {
            self.site.in_prefix().fill(words);
            self.site.span.end - self.site.span.start
        } else {
            0
        };
        self.note(seat, ticket, written);
    }

    /// Notes at the desk that this many more words of the ticket's region are written, unless it is 0.
    fn note(&self, seat: &Seat, ticket: &RegionTicket, words: u64)
        requires { words < 2 ^ 32 }
    {
        if words > 0 {
            self.desk.copied(seat, ticket, words as u32, self.wait);
        }
    }
}

/// Calls `on_last` with the source if its drain returned `Last`.
fn report_last<F: FnMut(u32)>(on_last: &mut F, source: u32, answer: Drained)
    requires { F.IsAlwaysCallable on_last.old }
    ensures callable { F.IsAlwaysCallable on_last.new }
    ensures reported { ReportsLast (λ f s f'. F.step f s tt f') source answer on_last.old on_last.new }
{
    match answer {
        Drained::Last => on_last(source),
        Drained::NotLast => {}
    }
}
