// The numbers of statements sorted by their lines: a merge sort in the words that hold them, at most n log2 n comparisons.
//
// A statement's number takes 16 bits and a word has 32, so a word holds two: the low half the order so far, the high half the merged one.
// The tables are slices, as `line_order` has them: no index is read.
#![tactic(auto)]

ghost use Rattle.std.specs.Prelude.{◌≡◌, map, ◌+◌, ◌≤◌, ◌<◌, length, take, drop};
ghost use Rattle.line_sort.specs.Sorted.{All, Sortable, Sorted, Merge, Held, Chosen, ByLine, high};

use store::StatementId;

// Whether the next number comes from the left run, which stands at i up to mid; the right run stands at j up to the end.
fn from_left(
    resources: &[u32],
    statements: &[u32],
    text: &[u8],
    work: &[u32],
    i: usize,
    j: usize,
    mid: usize,
) -> bool
    requires held { Held resources.now statements.now text.now work.now }
    requires i_le_mid { (i ≤ mid) × (mid ≤ j) × (j ≤ length work.now) × (i + j < mid + length work.now) }
    ensures { Chosen resources.now statements.now text.now work.now i j mid result }
{
    if i == mid {
        return false;
    }
    if j == work.len() {
        return true;
    }
    let a = StatementId(work[i] % 65536);
    let b = StatementId(work[j] % 65536);
    line_order::not_more(resources, statements, text, a, b)
}

// Merges two sorted runs, the first `mid` words and the others, into the high halves. Never inlined: `sort` calls itself up to 17 deep, and
// each frame would hold what a merge needs.
#[inline(never)]
fn merge(resources: &[u32], statements: &[u32], text: &[u8], work: &mut [u32], mid: usize)
    requires all { All (Sortable resources.now statements.now text.now) work.old }
    requires mid_in_bounds { mid ≤ length work.old }
    ensures { Merge (ByLine resources.now statements.now text.now)
        (take mid work.old) (drop mid work.old) (map high work.new) }
{
    let mut i: usize = 0;
    let mut j: usize = mid;
    // The runs before i and j are merged into the first k high halves; no low half has changed.
    for k in 0..work.len() {
        if from_left(resources, statements, text, work, i, j, mid) {
            work[k] = work[k] % 65536 + 65536 * (work[i] % 65536);
            i += 1;
        } else {
            work[k] = work[k] % 65536 + 65536 * (work[j] % 65536);
            j += 1;
        }
    }
}

// Each word's high half in place of the word.
fn unpack(work: &mut [u32])
    ensures { work.new ≡ map high work.old }
{
    for word in work.iter_mut() {
        *word /= 65536;
    }
}

// Sorts the numbers of statements in `work` by their lines.
pub fn sort(resources: &[u32], statements: &[u32], text: &[u8], work: &mut [u32])
    requires { All (Sortable resources.now statements.now text.now) work.old }
    ensures { Sorted (ByLine resources.now statements.now text.now)
        work.old work.new }
{
    let n = work.len();
    if n < 2 {
        return;
    }
    let mid = n / 2;
    sort(resources, statements, text, &mut work[0..mid]);
    sort(resources, statements, text, &mut work[mid..n]);
    merge(resources, statements, text, work, mid);
    unpack(work);
}
