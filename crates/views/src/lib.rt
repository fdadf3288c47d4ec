#![tactic(auto)]

// What a call that changes nothing answers, once nothing refuses it: a report, a read. That nothing refuses a read is required here (`Ready`), with what was found on the
// way to it; the answer is promised as the rules give it.
ghost use Rattle.std.specs.Prelude.{◌≡◌, [], ◌∷◌};
ghost use Rattle.rules.specs.Lent.{in_use};
ghost use Rattle.rules.specs.Answers.{said, outcome};
ghost use Rattle.rules.specs.Calls.{Call, call};
ghost use Rattle.state.specs.Seen.{lent_of};
ghost use Rattle.map.specs.Halved.{ends_by};
ghost use Rattle.refusals.specs.Accepts.{Ready};
ghost use Rattle.views.specs.Reads.{ListedPieces};

use map::in_use::InUse;
use rules::Counted;
use state::sound::Sound;

// A report.
pub fn count_pages(s: Sound<'_>) -> Counted
    ensures { outcome (said 0 (result.free ∷ result.live ∷ result.stale ∷ []) s.entry.head) s.entry.ext.now s.entry.blk.now s.entry.spare.now []
        ≡ call Call.report (lent_of s.entry) }
{
    blocks::totals_of(s.head, s.blk)
}

// A read that nothing refuses, where `first` is the first slot that ends after l: how many pieces it listed.
// A count beside the buffer, not a slice of it: the buffer is C's.
pub fn list_pieces(s: Sound<'_>, first: usize, l: u32, n: u32, out: &mut [u32]) -> u32
    requires { Ready (Call.read l n out.old) (lent_of s) × (first ≡ ends_by l (in_use (lent_of s))) }
    ensures { ListedPieces l n (lent_of s.entry) result out.old out.new }
{
    reading::list_found(InUse::of(s), first, l, l + n, out) as u32
}
