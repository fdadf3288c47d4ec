#![tactic(auto)]

// What C and Rust are answered: a struct by value, made of what the layer answers a call on head h. It is promised to say the same.
// C has no Result, so here a refusal is a number again.
ghost use Rattle.answers.specs.Said.{said_done, said_listed, said_counts};

use rules::{Counted, Head, Listed, Refusal};

// What fresh, write, trim, read and reclaim answer: the refusal's number, or 0; the count, 0 where there is none; the head.
#[repr(C)]
#[derive(Clone, Copy, Debug, PartialEq, Eq)]
pub struct Outcome {
    pub refusal: u32,
    pub count: u32,
    pub head: Head,
}

// What report answers.
#[repr(C)]
#[derive(Clone, Copy, Debug, PartialEq, Eq)]
pub struct Counts {
    pub refusal: u32,
    pub free: u32,
    pub live: u32,
    pub stale: u32,
    pub head: Head,
}

pub fn of_done(h: Head, d: Result<Head, Refusal>) -> Outcome
    ensures { said_done result h d }
{
    match d {
        Ok(head) => Outcome {
            refusal: 0,
            count: 0,
            head,
        },
        Err(r) => refused(r, h),
    }
}

pub fn of_listed(h: Head, d: Result<Listed, Refusal>) -> Outcome
    ensures { said_listed result h d }
{
    match d {
        Ok(Listed { count, head }) => Outcome {
            refusal: 0,
            count,
            head,
        },
        Err(r) => refused(r, h),
    }
}

fn refused(r: Refusal, head: Head) -> Outcome
    ensures { said_listed result head (Err r) }
{
    Outcome {
        refusal: words::number_of(r),
        count: 0,
        head,
    }
}

pub fn of_counted(h: Head, d: Result<Counted, Refusal>) -> Counts
    ensures { said_counts result h d }
{
    match d {
        Ok(Counted { free, live, stale }) => Counts {
            refusal: 0,
            free,
            live,
            stale,
            head: h,
        },
        Err(r) => Counts {
            refusal: words::number_of(r),
            free: 0,
            live: 0,
            stale: 0,
            head: h,
        },
    }
}
