#![tactic(auto)]

// The double refund: lines of an account book are backed up to a small flash device, the host crashes and sends its writes again, and what
// comes of it is told as a ledger. The answers are the layer's, and the flash is changed as they say.
mod accounts;
mod device;
mod flash;
mod host;
mod money;

use device::Write;
use host::Host;
use lists::print::Failure;
use std::io;

const TITLE: &str = "The double refund\n\n\
    A flash device has 4 blocks of 4 pages, the last block in reserve. A page holds a line of an account book.\n\
    Each write has a number, and a number is taken once.\n\
    Valid: the pages in use, block by block. Free, live and stale: the pages of the device but the reserve.\n";

const THEOREM: &str =
    "\nThis is one history. The same is proved of every history, from any sound state and with anything in between:\n\
    theorem applied-once, which crates/demands/specs/Once.antt states.\n";

// Numbers 1 and 2: the backup and its correction, each sent twice.
fn backup(host: &mut Host) -> io::Result<()> {
    let (first, again) = host.send_twice(
        Write {
            number: 1,
            start: 0,
            count: 4,
        },
        "\n1. Lines 4414 to 4417 are backed up: write number 1.\n",
        "\n2. The host crashes. It has heard no answer, and sends write number 1 again.\n",
    )?;
    host.tell_refund(4417, first)?;
    host.tell_refund(4418, again)?;
    host.correct(1, 1290);
    host.correct(2, 6150);
    let _ = host.send_twice(
        Write {
            number: 2,
            start: 1,
            count: 2,
        },
        "\n3. Lines 4415 and 4416 are corrected: write number 2.\n",
        "\n4. The host crashes, and sends write number 2 again. Struck off twice, block 0 would look empty.\n",
    )?;
    Ok(())
}

// Number 3: the same lines with a number never used.
fn anew(host: &mut Host) -> io::Result<()> {
    let _ = host.send_twice(
        Write {
            number: 3,
            start: 0,
            count: 4,
        },
        "\n7. The same lines are sent with a number never used: write number 3.\n",
        "\n8. Write number 3 is sent again.\n",
    )?;
    Ok(())
}

fn story(host: &mut Host) -> io::Result<()> {
    host.tell(TITLE)?;
    host.fresh()?;
    backup(host)?;
    host.tell("\n5. Space is reclaimed.\n")?;
    host.reclaim()?;
    host.tell("\n6. Every line is read back.\n")?;
    host.read_back()?;
    anew(host)?;
    host.tell("\n9. Every line is read back.\n")?;
    host.read_back()?;
    host.tell(THEOREM)?;
    host.end()
}

fn main(rt: HostRuntime) {
    let mut host = Host::new(rt.stdout(), [2500, 1240, 6000, 1820, 0, 0, 0, 0]);
    if let Err(error) = story(&mut host) {
        let _ = eprintln!(rt; "{}", Failure::of_output(error));
    }
}
