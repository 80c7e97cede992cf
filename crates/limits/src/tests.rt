// The numbers of regions, at both ends of their ranges and past them.
use crate::index::{OutOfRange, RegionCount, Regions};

#[test]
fn an_area_has_1_to_16_regions(rt: HostRuntime) {
    for (number, want) in [
        (0, Err(OutOfRange)),
        (1, Ok(1)),
        (16, Ok(16)),
        (17, Err(OutOfRange)),
    ] {
        let found = Regions::of(number).map(|regions| regions.get());
        assert_eq!(rt; found, want, "at {number}");
    }
}

#[test]
fn a_region_is_below_their_number(rt: HostRuntime) {
    for (number, want) in [(0, Ok(0)), (3, Ok(3)), (4, Err(OutOfRange))] {
        let region = Regions::of(4).and_then(|regions| regions.region(number));
        let found = region.map(|region| region.get());
        assert_eq!(rt; found, want, "at {number}");
    }
}

#[test]
fn a_count_of_regions_is_0_to_16(rt: HostRuntime) {
    for number in [0, 1, 16] {
        let count = RegionCount::new(number);
        assert_eq!(rt; count.get(), number);
        let found = count.region(0).is_ok();
        assert_eq!(rt; found, number != 0, "region 0 of {number}");
    }
    let count = Regions::of(16).map(|regions| regions.count().get());
    assert_eq!(rt; count, Ok(16));
}
