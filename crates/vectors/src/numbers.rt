// The number of each fault, and how one is carried up through the layers.
use faults::{Cause, ReelFault, ScriptFault, SessionFault, Stop};

const CAUSES: [(Cause, u16); 7] = [
    (Cause::NoExtent, 1),
    (Cause::PastReel, 2),
    (Cause::NoTempo, 3),
    (Cause::TempoAboveLimit, 4),
    (Cause::ExtentAboveLimit, 5),
    (Cause::Other(0), 0),
    (Cause::Other(65535), 65535),
];

const SESSION: [(SessionFault, u16); 16] = [
    (SessionFault::NotHeld, 1),
    (SessionFault::BeyondEnd, 2),
    (SessionFault::EmptyRange, 3),
    (SessionFault::RangePastEnd, 4),
    (SessionFault::ClipboardEmpty, 6),
    (SessionFault::PastEmpty, 7),
    (SessionFault::FutureEmpty, 8),
    (SessionFault::HoldsOut, 9),
    (SessionFault::ExtentLimit, 10),
    (SessionFault::ElementLimit, 11),
    (SessionFault::FewCells, 12),
    (SessionFault::BeyondTally, 13),
    (SessionFault::OutputShort, 14),
    (SessionFault::RenderTooLong, 15),
    (SessionFault::NoSample, 17),
    (SessionFault::CellsOutside, 18),
];

// A kind's refusal as a session passes it on, and as a script does.
fn in_session(cause: Cause) -> Result<(), SessionFault> {
    Err(cause)?;
    Ok(())
}

fn in_script(cause: Cause) -> Result<(), ScriptFault> {
    in_session(cause)?;
    Ok(())
}

#[test]
fn a_cause_is_carried_into_a_session_and_a_script(rt: HostRuntime) {
    for (cause, number) in CAUSES {
        assert_eq!(rt; cause.number(), number);
        let session = in_session(cause).map_err(|fault| (fault.number(), fault.cause()));
        let script = in_script(cause).map_err(|fault| (fault.number(), fault.cause()));
        assert_eq!(rt; (session, script), (Err((5, number)), Err((5, number))));
    }
}

#[test]
fn other_faults_have_a_number_and_no_cause(rt: HostRuntime) {
    for (fault, number) in SESSION {
        let carried = ScriptFault::from(fault);
        assert_eq!(rt; (fault.number(), fault.cause()), (number, 0));
        assert_eq!(rt; (carried.number(), carried.cause()), (number, 0));
    }
    for (fault, number) in [
        (ScriptFault::UnknownKind, 23u16),
        (ScriptFault::PayloadLength, 24),
    ] {
        assert_eq!(rt; (fault.number(), fault.cause()), (number, 0));
    }
    for (stop, code) in [(Stop::End, 0u16), (Stop::NoRoom, 14), (Stop::CutShort, 22)] {
        assert_eq!(rt; stop.code(), code);
    }
    for (fault, number) in [(ReelFault::OddBytes, 19u16), (ReelFault::TooLong, 21)] {
        assert_eq!(rt;
            (fault.number(), Stop::from(fault).code()),
            (number, number)
        );
    }
}
