#![tactic(auto)]

// The labels of one slot, compared with its logical pages a window of W words at a time, so that no label is left to a step of its own: the window of a short
// slot is masked, with a part of a table of W ones and W zeros, and the last window of a longer one ends where the slot does.
ghost use Rattle.std.specs.Prelude.{◌≡◌, ℕ, ◌+◌, ◌<◌, ◌≤◌, max, length, get_or};
ghost use Rattle.words.specs.Says.{Says};
ghost use Rattle.windows.specs.Window.{Table, Masked, Windowed, Reach, HomeGiven, Labelled};

// Labels that are compared at a time.
const W: usize = 8;

// The table of masks: W ones, W zeros.
pub fn masks() -> [u32; 16]
    ensures { Table result }
{
    let mut table = [0; 16];
    table[..W].fill(u32::MAX);
    table
}

// From a page before this one on there are N pages and a window: no slot there reaches over the last page, and no window.
pub fn near_of(pages: usize, n: usize) -> usize
    ensures { Reach result n pages }
{
    pages.saturating_sub(n.max(W))
}

// The words under the mask's ones are those that end before e: e - W, e - W + 1, .. Counted from the end no lane adds 0, and all of them are one vector.
fn window_ok(ws: &[u32], mask: &[u32], e: u32) -> bool
    requires { (8 ≤ length ws.now) × (8 ≤ length mask.now) × (8 ≤ e) }
    ensures { Masked ws.now mask.now e result }
{
    let mut off = 0;
    for k in 0..W {
        off |= (ws[k] ^ (e - (W - k) as u32)) & mask[k];
    }
    off == 0
}

// The words, of which there are more than W, are l, l + 1, .. The last window ends with them, and so may reach back over words that were compared already.
fn windows_ok(ws: &[u32], l: u32, table: &[u32]) -> bool
    requires { Windowed ws.now l table.now }
    ensures { Says result ((k : ℕ) → k < length ws.now → get_or ws.now k 0 ≡ l + k) }
{
    let len = ws.len();
    for k in (0..len - W).step_by(W) {
        if !window_ok(&ws[k..k + W], &table[..W], l + (k + W) as u32) {
            return false;
        }
    }
    window_ok(&ws[len - W..], &table[..W], l + len as u32)
}

// The pages from p on, c of them, are there and carry the logical pages from l on. Before page `near` neither they nor a window reach over the last page.
pub fn home_ok(spare: &[u32], near: usize, table: &[u32], l: u32, p: u32, c: u32) -> bool
    requires { HomeGiven spare.now near table.now l c }
    ensures { Says result (Labelled spare.now l p c) }
{
    let from = p as usize;
    let many = c as usize;
    let to = from + many;
    if from >= near {
        return to <= spare.len() && words::all_rise(&spare[from..to], l);
    }
    if many > W {
        return windows_ok(&spare[from..to], l, table);
    }
    let r = W - many;
    window_ok(&spare[from..from + W], &table[r..r + W], l + W as u32)
}
