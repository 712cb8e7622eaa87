//! Tests of the causes of fault 4.
use super::texts::front;
use crate::checks::equal;
use heap_image::LengthCause;

#[test]
fn a_front_has_a_cause_of_fault_4_or_none(rt: HostRuntime) {
    let causes = [
        (3, 33, 32, Some(LengthCause::CountAboveWords)),
        (3, 32, 32, None),
        (2, 0, 0, None),
        (17, 0, 0, None),
        (8, 0, 4_194_304, None),
    ];
    for (region_log, count, words, cause) in causes {
        equal(
            &rt,
            LengthCause::of(&front(region_log, count, words)),
            cause,
        );
    }
    equal(&rt, LengthCause::of(&[0; 32]), None);
}
