// The stock sheet: for each class and region the blocks in hand, in caches, with running requests, and in the chain.
// The numbers are gathered in an array of this function's own and written last, for a call that is refused may change
// no byte of the row.
#![tactic(auto)]

ghost use Rattle.std.specs.Prelude.{◌≡◌, length};
ghost use Rattle.links.specs.Link.{link};
ghost use Rattle.control.specs.Layout.{seen};
ghost use Rattle.stepped.specs.Done.{AreaOf};
ghost use Rattle.reports.specs.Rows.{numbers_to};
ghost use Rattle.reports.specs.Reports.{answered, report_number, Answers, Gathered};
ghost use Rattle.sheet.specs.Sheet.{SHEET_NUMBERS, sheet_number, sheet_in_range};
ghost use Rattle.sheet.specs.Filling.{FourAre, RowsAre};

use control::column::Control;
use limits::index::{Class, OutOfRange, Region, RegionCount};
use limits::refusal::Refusal;
use reports::row;

pub const COLUMNS: usize = 4;

pub const SHEET_NUMBERS: usize = limits::CLASSES * limits::REGIONS * COLUMNS;

pub const SHEET_BYTES: usize = 2 * SHEET_NUMBERS;

// The length that callers are told.
const _: () = prove!(SHEET_BYTES == 1664);

// What a region shows that is not open in the class, or not in the area.
const ZEROS: [u16; COLUMNS] = [0; COLUMNS];

// The numbers of a class and region, where so many blocks of it are in caches and with requests: in hand, in caches,
// with requests, and in the chain. Caller: `rows`.
fn four_of(
    control: &Control,
    regions: RegionCount,
    class: Class,
    region: Region,
    caches: u16,
    requests: u16,
) -> Result<[u16; COLUMNS], OutOfRange>
    ensures { FourAre (seen control.now) regions caches requests class region result }
{
    if regions.get() <= region.get() {
        return Ok(ZEROS);
    }
    match report_regions::of_region(control, regions, region)? {
        Some(open) if open.class.get() == class.get() => {
            let hand = report_marks::in_hand(control, region, class);
            Ok([hand, caches, requests, open.chain])
        }
        Some(_) => Ok(ZEROS),
        None => Ok(ZEROS),
    }
}

// Fills in the numbers of a class, region by region, where each region has so many blocks in caches and with requests.
// Caller: `fill`.
fn rows(
    control: &Control,
    regions: RegionCount,
    class: Class,
    caches: &[u16; limits::REGIONS],
    requests: &[u16; limits::REGIONS],
    numbers: &mut [u16],
) -> Result<(), OutOfRange>
    requires { length numbers.old ≡ SHEET_NUMBERS }
    ensures { RowsAre (seen control.now) regions caches.now requests.now class numbers.old numbers.new result }
{
    for region in 0..limits::REGIONS {
        let four = four_of(
            control,
            regions,
            class,
            Region::new(region),
            caches[region],
            requests[region],
        )?;
        let at = COLUMNS * (limits::REGIONS * class.get() + region);
        numbers[at..at + COLUMNS].copy_from_slice(&four);
    }
    Ok(())
}

// Fills in all numbers, class by class. Caller: `write`.
fn fill(
    control: &Control,
    area: &[u8],
    regions: RegionCount,
    numbers: &mut [u16],
) -> Result<(), OutOfRange>
    requires { AreaOf regions area.now × (length numbers.old ≡ SHEET_NUMBERS) }
    ensures { Gathered (sheet_in_range (seen control.now) (link area.now) regions)
        (numbers_to SHEET_NUMBERS (sheet_number (seen control.now) (link area.now) regions))
        numbers.new result }
{
    for number in 0..limits::CLASSES {
        let class = Class::new(number);
        let caches = report_caches::of_class(control, area, regions, class)?;
        let requests = report_requests::of_class(control, regions, class)?;
        rows(control, regions, class, &caches, &requests, numbers)?;
    }
    Ok(())
}

// The sheet of the memories into the row. The caller is the exported function, which has made the tests 1, 4, 2.
pub fn write(
    control: &Control,
    area: &[u8],
    regions: RegionCount,
    row: &mut [u8],
) -> Result<(), Refusal>
    requires { AreaOf regions area.now }
    ensures { Answers (answered
        (sheet_in_range (seen control.now) (link area.now) regions)
        (numbers_to SHEET_NUMBERS (sheet_number (seen control.now) (link area.now) regions))
        row.old) row.new (report_number result) }
{
    let mut numbers = [0u16; SHEET_NUMBERS];
    fill(control, area, regions, &mut numbers)?;
    row::write(row, &numbers)
}
