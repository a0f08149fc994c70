// The status of each refusal.

use std::process::Abort;
use zst_model::{
    ApplyFault, Flaw, Holder, Lack, PlanFault, PresentSubject, Quantity, Refusal, StreamFault,
};
use zst_run::status_of;

fn check(rt: &impl Abort, refusal: Refusal, status: u8) {
    assert_eq!(rt; status_of(&refusal), status, "{refusal}");
}

fn check_stream(rt: &impl Abort, fault: StreamFault) {
    check(rt, Refusal::from(fault), 4);
}

#[test]
fn words_are_2_and_plans_3(rt: HostRuntime) {
    check(&rt, Refusal::Usage { place: 0 }, 2);
    check(&rt, Refusal::from(PlanFault::BadName { place: 0 }), 2);
    check(&rt, Refusal::BadToken { place: 0 }, 2);
    check(
        &rt,
        Refusal::from(PlanFault::Exists(PresentSubject::Pool)),
        3,
    );
    check(&rt, Refusal::from(PlanFault::Busy(Holder::Session(0))), 3);
    check(&rt, Refusal::from(PlanFault::NoOrigin { guid: 0 }), 3);
    check(&rt, Refusal::from(PlanFault::Unsupported(Lack::Kind)), 3);
    check(
        &rt,
        Refusal::Redacted {
            object: 1,
            block: 0,
        },
        3,
    );
    let fault = ApplyFault::NoObject;
    check(&rt, Refusal::CannotApply { record: 0, fault }, 3);
}

#[test]
fn streams_are_4(rt: HostRuntime) {
    let (stated, found) = ([1; 4], [2; 4]);
    let flaw = Flaw::Magic;
    let lack = Lack::Kind;
    let fault = ApplyFault::NoObject;
    check_stream(&rt, StreamFault::Grammar { at: 8, flaw });
    let wrong_sum = StreamFault::Checksum {
        at: 8,
        stated,
        found,
    };
    check_stream(&rt, wrong_sum);
    check_stream(&rt, StreamFault::Unsupported { at: 8, lack });
    check_stream(&rt, StreamFault::Truncated { at: 8 });
    check(&rt, Refusal::CannotApply { record: 1, fault }, 4);
}

#[test]
fn the_outside_is_5_to_8_and_room_9(rt: HostRuntime) {
    let (stated, found) = ([1; 4], [2; 4]);
    let (which, number) = (Quantity::Number, 1 << 63);
    check(&rt, Refusal::SourceFault, 5);
    check(&rt, Refusal::SinkFault, 6);
    check(&rt, Refusal::DiskFault, 7);
    check(
        &rt,
        Refusal::Damaged {
            sector: 8,
            stated,
            found,
        },
        8,
    );
    check(&rt, Refusal::NoPool, 8);
    check(&rt, Refusal::BadVersion { number: 0 }, 8);
    check(&rt, Refusal::Limit { which, number }, 9);
    check(&rt, Refusal::from(PlanFault::Limit { which, number }), 9);
    check(
        &rt,
        Refusal::Full {
            need: 2,
            largest: 1,
        },
        9,
    );
    check(&rt, Refusal::OutOfMemory, 10);
}
