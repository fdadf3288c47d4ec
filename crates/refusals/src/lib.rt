#![tactic(auto)]

// A verdict is `Ok`, or the first refusal of several in the paper's order, which `?` hands on. Here are a test's verdict, and the two tests that a request answers
// for by itself: its range and its number. What a verdict comes to for a call is said here too (specs, Accepts).
ghost use Rattle.std.specs.Prelude.{◌≡◌, not, ◌||◌, ◌+◌, eqb, ltb};
ghost use Rattle.rules.specs.Answers.{refuse};
ghost use Rattle.rules.specs.declared.Refusal.{Refusal};
ghost use Rattle.refusals.specs.Refusals.{told};
ghost use Rattle.refusals.specs.Numbered.{number_refusal};

use rules::{Head, Refusal};

// A test's verdict: refusal r unless it is passed.
pub fn unless(passed: bool, r: Refusal) -> Result<(), Refusal>
    ensures { told result ≡ refuse (not passed) r 0 }
{
    if passed { Ok(()) } else { Err(r) }
}

// Not outside: one page or more, ending at or below L.
pub fn in_range(top: u32, l: u32, n: u32) -> bool
    ensures { not result ≡ (eqb n 0 || ltb top (l + n)) }
{
    n != 0 && (l as u64) + (n as u64) <= (top as u64)
}

// The test of a number.
pub fn number_verdict(h: Head, number: u64) -> Result<(), Refusal>
    ensures { told result ≡ number_refusal h number }
{
    unless(h.last.number < number, Refusal::Applied)
}

// 3 and 4, as a trim and a write are asked, where the test of the range says whether it is inside.
pub fn asked_verdict(h: Head, inside: bool, number: u64) -> Result<(), Refusal>
    ensures { told result ≡ refuse (not inside) Refusal.Range (number_refusal h number) }
{
    unless(inside, Refusal::Range)?;
    number_verdict(h, number)
}
