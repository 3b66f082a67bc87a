// Table 1690 as 1,000 numbers, one for each code 000 to 999: cloud heights one at a time and many at once.
#![tactic(auto)]

ghost use Rattle.std.specs.Prelude.{◌≡◌};
ghost use Rattle.scales.specs.Metres.{cloud, metres_reading};
ghost use Rattle.cloud_table.specs.Heights.{height_or_mark, cloud_table, room, heights_over};

use crate::table::CLOUD_HEIGHTS;

mod table;

// The mark of a code that is not used: a number that no height is, since heights go to 99,999.
pub const UNUSED: u32 = 100000;

// The whole table: entry 0 is the number of code 000, entry 999 that of code 999.
pub fn whole_table() -> [u32; 1000]
    ensures { result ≡ cloud_table }
{
    CLOUD_HEIGHTS
}

// The number of a code in the table, which is lent: a constant array is put together anew wherever it is named, and so the caller does it once.
fn look_up(table: &[u32; 1000], code: u32) -> u32
    requires { table.now ≡ cloud_table }
    ensures { result ≡ height_or_mark code }
{
    if code < 1000 {
        table[code as usize]
    } else {
        UNUSED
    }
}

fn fill(table: &[u32; 1000], codes: &[u32], heights: &mut [u32]) -> usize
    requires { table.now ≡ cloud_table }
    ensures count { result ≡ room codes.now heights.old }
    ensures filled { heights.new ≡ heights_over codes.now heights.old }
{
    let n = codes.len().min(heights.len());
    // By index: what a zipped `iter_mut` leaves in the slice is not known to a proof.
    for i in 0..n {
        heights[i] = look_up(table, codes[i]);
    }
    n
}

// The table's number for any code: the height in metres, or the mark where the code is unused or over 999.
pub fn height_or_mark(code: u32) -> u32
    ensures { result ≡ height_or_mark code }
{
    let table = whole_table();
    look_up(&table, code)
}

// The answer of `scales::metres::cloud_reading`, by the table; for a single code the rule there is faster, as it has no table to put together.
pub fn cloud_height(code: u32) -> Option<u32>
    ensures { result ≡ metres_reading cloud code }
{
    let height = height_or_mark(code);
    if height == UNUSED { None } else { Some(height) }
}

// The table's numbers for many codes, as many as both slices have room for: how many these are. The heights past them stay as they were.
pub fn cloud_heights(codes: &[u32], heights: &mut [u32]) -> usize
    ensures count { result ≡ room codes.now heights.old }
    ensures filled { heights.new ≡ heights_over codes.now heights.old }
{
    let table = whole_table();
    fill(&table, codes, heights)
}
