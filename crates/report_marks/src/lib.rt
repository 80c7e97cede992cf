// "Blocks in hand are counted from the marks": the ones of a region's eight mark words, each masked to the first units
// of the class's blocks. The lowest of these blocks is at the lowest set bit of the first such word that is not 0.
// Nothing here writes memory.
#![tactic(auto)]

ghost use Rattle.std.specs.Prelude.{◌≡◌, ◌<◌, IfSome, IfNone};
ghost use Rattle.limits.specs.Limits.{WORD_MARKS, UNITS};
ghost use Rattle.classes.specs.Classes.{units};
ghost use Rattle.control.specs.Layout.{seen};
ghost use Rattle.report_marks.specs.Masks.{REGION_WORDS, every_bit, MaskOf};
ghost use Rattle.report_marks.specs.InHand.{blocks_in_hand, lowest_in_hand};

use classes::table;
use control::column::Control;
use control::layout;
use limits::index::{Class, Index, Region};

const REGION_WORDS: usize = limits::REGION_UNITS / limits::WORD_MARKS;

// A word with every bit set at which a block of the class begins, if one begins at bit 0. The last arm is past the
// table, as in the table of classes. Caller: `mask`.
fn pattern(class: Class) -> u64
    ensures { result ≡ every_bit (units class) WORD_MARKS }
{
    match class.get() {
        0 => 18446744073709551615,
        1 => 6148914691236517205,
        2 => 1229782938247303441,
        3 => 1171221845949812801,
        4 => 72340172838076673,
        5 => 1154048505100108801,
        6 => 1153203048319815681,
        7 => 72061992352890881,
        8 => 281479271743489,
        9 => 1152922604119523329,
        10 => 281474993487873,
        11 => 72057594306363393,
        12 => 4294967297,
        _ => 18446744073709551615,
    }
}

// The first units of the class's blocks in one of a region's words: the pattern, from the first block that begins in
// the word on, and in the last word without what is left over behind the last block. Callers: `in_hand` and
// `lowest_in_hand`.
fn mask(class: Class, word: usize) -> u64
    requires { word < REGION_WORDS }
    ensures { MaskOf class word result }
{
    let units = table::units(class);
    let skip = (units - limits::WORD_MARKS * word % units) % units;
    let all = pattern(class) << skip;
    if word < REGION_WORDS - 1 {
        return all;
    }
    let over = limits::REGION_UNITS % units;
    (all << over) >> over
}

// How many blocks of the class in the region are in users' hands. Callers: the reports.
pub fn in_hand(control: &Control, region: Region, class: Class) -> u16
    ensures { result ≡ blocks_in_hand (seen control.now) region class }
{
    let mut held: u16 = 0;
    for word in 0..REGION_WORDS {
        let marks = layout::UNIT_MARKS.get(control, Index::new(REGION_WORDS * region.get() + word));
        held += u64::count_ones(marks & mask(class, word)) as u16;
    }
    held
}

// The lowest unit of a block of the class in the region that is in users' hands, if there is one. Callers: the keepers.
pub fn lowest_in_hand(control: &Control, region: Region, class: Class) -> Option<u16>
    ensures found { IfSome result (λ unit. unit ≡ lowest_in_hand (seen control.now) region class) }
    ensures below { IfSome result (λ unit. unit < UNITS) }
    ensures none { IfNone result (lowest_in_hand (seen control.now) region class ≡ UNITS) }
{
    for word in 0..REGION_WORDS {
        let marks = layout::UNIT_MARKS.get(control, Index::new(REGION_WORDS * region.get() + word));
        let held = marks & mask(class, word);
        if held != 0 {
            let bit = u64::trailing_zeros(held) as usize;
            return Some(
                (limits::REGION_UNITS * region.get() + limits::WORD_MARKS * word + bit) as u16,
            );
        }
    }
    None
}
