// The form by holder: for each class the blocks in hand, in each task's cache, with each task's request, and in the
// chains, added up over the regions that are open in the class. The numbers are gathered in an array of this function's
// own and written last, for a call that is refused may change no byte of the row.
#![tactic(auto)]

ghost use Rattle.std.specs.Prelude.{◌≡◌, ℕ, ◌+◌, ◌*◌, ◌≤◌, ◌<◌, length, get_or, is_ok};
ghost use Rattle.limits.specs.Limits.{MOST_BLOCKS};
ghost use Rattle.links.specs.Link.{link};
ghost use Rattle.control.specs.Layout.{seen};
ghost use Rattle.stepped.specs.Done.{AreaOf};
ghost use Rattle.reports.specs.ByRegion.{in_region};
ghost use Rattle.reports.specs.Rows.{numbers_to};
ghost use Rattle.reports.specs.Reports.{answered, report_number, Answers, Gathered};
ghost use Rattle.report_marks.specs.InHand.{blocks_in_hand};
ghost use Rattle.report_caches.specs.CacheRows.{cache_row, is_cache};
ghost use Rattle.report_requests.specs.UnderWay.{request_blocks, in_request};
ghost use Rattle.sheet.specs.Sheet.{sheet_in_range};
ghost use Rattle.holders.specs.Form.{HOLDERS, FORM_NUMBERS, added_up, form_number};
ghost use Rattle.holders.specs.FormFilling.{class_read, chain_read, NumbersOf, AsRead, NumberIs, form_fits};

use control::column::Control;
use limits::REGIONS;
use limits::index::{Class, OutOfRange, Region, RegionCount, Task};
use limits::refusal::Refusal;
use report_regions::OpenRegion;
use reports::row;

// Where the numbers of a class stand in its line: the one for the marks first, then one for each task's cache, then one
// for each task's request, then the one for the chains.
pub const FIRST_CACHE: usize = 1;

pub const FIRST_REQUEST: usize = FIRST_CACHE + limits::TASKS;

pub const CHAINS: usize = FIRST_REQUEST + limits::TASKS;

pub const HOLDERS: usize = CHAINS + 1;

pub const FORM_NUMBERS: usize = limits::CLASSES * HOLDERS;

pub const FORM_BYTES: usize = 2 * FORM_NUMBERS;

// The length that callers are told.
const _: () = prove!(FORM_BYTES == 468);

// The class of a region that is not open: the first number that is no class.
const NO_CLASS: u16 = limits::CLASSES as u16;

// What was read of the regions, as plain numbers, since every number of the form asks for each region's class: that in
// which each is open, and how many blocks its chain has.
#[derive(Clone, Copy)]
struct OpenNumbers {
    classes: [u16; REGIONS],
    chains: [u16; REGIONS],
}

// The class in which a region is open. Caller: `numbers_of`.
fn class_of(found: Option<OpenRegion>) -> u16
    ensures { result ≡ class_read found }
{
    match found {
        Some(open) => open.class.get() as u16,
        None => NO_CLASS,
    }
}

// How many blocks the chain of a region has. Caller: `numbers_of`.
fn chain_of(found: Option<OpenRegion>) -> u16
    ensures { result ≡ chain_read found }
{
    match found {
        Some(open) => open.chain,
        None => 0,
    }
}

// The numbers of what was read of the regions. Caller: `fill`.
fn numbers_of(regions: RegionCount, opened: &[Option<OpenRegion>; REGIONS]) -> OpenNumbers
    ensures { NumbersOf regions opened.now result.classes result.chains }
{
    let mut classes = [NO_CLASS; REGIONS];
    let mut chains = [0u16; REGIONS];
    for region in 0..regions.get() {
        classes[region] = class_of(opened[region]);
        chains[region] = chain_of(opened[region]);
    }
    OpenNumbers { classes, chains }
}

// The numbers of the regions that are open in the class, added up. Every region is asked, also one that is not open in
// the class: the numbers stand in arrays, and where each is read, the compiled code adds up several at once. Callers:
// the functions below.
fn add_up<F: Fn(Region) -> u16>(
    regions: RegionCount,
    classes: &[u16; REGIONS],
    class: Class,
    number: F,
) -> u16
    requires callable { F.IsAlwaysCallable number }
    requires small { (r x : ℕ) → r < regions → F.post number r x → x ≤ MOST_BLOCKS + 1 }
    ensures { (n : ℕ → ℕ) → ((r x : ℕ) → r < regions → F.post number r x → x ≡ n r)
        → result ≡ added_up regions (λ r. get_or classes.now r 0) class n }
{
    let wanted = class.get() as u16;
    let mut sum: u16 = 0;
    for region in 0..regions.get() {
        let blocks = number(Region::new(region));
        if wanted == classes[region] {
            sum += blocks;
        }
    }
    sum
}

// The blocks in hand of the regions that are open in the class, added up: the marks of others are not read. Caller:
// `of_holder`.
fn in_hands(control: &Control, regions: RegionCount, classes: &[u16; REGIONS], class: Class) -> u16
    ensures { result
        ≡ added_up regions (λ z. get_or classes.now z 0) class (λ z. blocks_in_hand (seen control.now) z class) }
{
    let wanted = class.get() as u16;
    let mut sum: u16 = 0;
    for region in 0..regions.get() {
        if classes[region] == wanted {
            sum += report_marks::in_hand(control, Region::new(region), class);
        }
    }
    sum
}

// The blocks in a task's cache of the class, in the regions that are open in it. Caller: `of_holder`.
fn in_cache(
    control: &Control,
    area: &[u8],
    regions: RegionCount,
    classes: &[u16; REGIONS],
    task: Task,
    class: Class,
) -> Result<u16, OutOfRange>
    requires { AreaOf regions area.now }
    ensures { NumberIs (is_cache (seen control.now) (link area.now) regions task class)
        (added_up regions (λ z. get_or classes.now z 0) class
        (λ z. in_region z (cache_row (seen control.now) (link area.now) task class))) result }
{
    let counts = report_caches::cache(control, area, regions, task, class, [0; REGIONS])?;
    Ok(add_up(regions, classes, class, |region| counts[region.get()]))
}

// The blocks of the class that a task's request has under way, in those regions. Caller: `of_holder`.
fn in_request(
    control: &Control,
    regions: RegionCount,
    classes: &[u16; REGIONS],
    task: Task,
    class: Class,
) -> Result<u16, OutOfRange>
    ensures { NumberIs (is_ok (request_blocks (seen control.now) regions task))
        (added_up regions (λ z. get_or classes.now z 0) class
        (λ z. in_request class z (request_blocks (seen control.now) regions task))) result }
{
    let counts = report_requests::with_request(control, regions, task, class, [0; REGIONS])?;
    Ok(add_up(regions, classes, class, |region| counts[region.get()]))
}

// The number of a class and holder, by what was read of the regions. Caller: `fill`.
fn of_holder(
    control: &Control,
    area: &[u8],
    regions: RegionCount,
    opened: &OpenNumbers,
    class: Class,
    holder: usize,
) -> Result<u16, OutOfRange>
    requires { AreaOf regions area.now × (holder < HOLDERS)
        × AsRead (seen control.now) regions opened.now.classes opened.now.chains }
    ensures { NumberIs
        (form_fits (seen control.now) (link area.now) regions (HOLDERS * class + holder))
        (form_number (seen control.now) (link area.now) regions (HOLDERS * class + holder)) result }
{
    let classes = &opened.classes;
    if holder < FIRST_CACHE {
        return Ok(in_hands(control, regions, classes, class));
    }
    if holder < FIRST_REQUEST {
        return in_cache(
            control,
            area,
            regions,
            classes,
            Task::new(holder - FIRST_CACHE),
            class,
        );
    }
    if holder < CHAINS {
        return in_request(
            control,
            regions,
            classes,
            Task::new(holder - FIRST_REQUEST),
            class,
        );
    }
    let chains = &opened.chains;
    Ok(add_up(regions, classes, class, |region| chains[region.get()]))
}

// Fills in all numbers, one after the other. Caller: `write`.
fn fill(
    control: &Control,
    area: &[u8],
    regions: RegionCount,
    numbers: &mut [u16],
) -> Result<(), OutOfRange>
    requires { AreaOf regions area.now × (length numbers.old ≡ FORM_NUMBERS) }
    ensures { Gathered (sheet_in_range (seen control.now) (link area.now) regions)
        (numbers_to FORM_NUMBERS (form_number (seen control.now) (link area.now) regions))
        numbers.new result }
{
    let found = report_regions::of_regions(control, regions)?;
    let opened = numbers_of(regions, &found);
    for i in 0..FORM_NUMBERS {
        let class = Class::new(i / HOLDERS);
        numbers[i] = of_holder(control, area, regions, &opened, class, i % HOLDERS)?;
    }
    Ok(())
}

// The form of the memories into the row. The caller is the exported function, which has made the tests 1, 4, 2.
pub fn write(
    control: &Control,
    area: &[u8],
    regions: RegionCount,
    row: &mut [u8],
) -> Result<(), Refusal>
    requires { AreaOf regions area.now }
    ensures { Answers (answered
        (sheet_in_range (seen control.now) (link area.now) regions)
        (numbers_to FORM_NUMBERS (form_number (seen control.now) (link area.now) regions))
        row.old) row.new (report_number result) }
{
    let mut numbers = [0u16; FORM_NUMBERS];
    fill(control, area, regions, &mut numbers)?;
    row::write(row, &numbers)
}
