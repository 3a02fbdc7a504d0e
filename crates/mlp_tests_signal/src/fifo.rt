ghost use Rattle.std.specs.Prelude.{◌+◌, ◌^◌, ◌<◌, ◌≤◌};

use mlp_fifo::{Checker, Fifo, Pace, peak};
use mlp_syntax::{Kind, Memory, NoRoom};

/// Places units of one length, and answers the last one's time.
fn place_all(fifo: &mut Fifo, units: u64, bytes: u32) -> Result<i64, NoRoom>
    requires bytes { bytes ≤ 8190 }
    requires few { fifo.old.count + units < 2 ^ 40 }
    ensures { fifo.new.count ≤ fifo.old.count + units }
{
    let mut time = 0;
    for _unit in 0..units {
        time = fifo.place(bytes)?;
    }
    Ok(time)
}

#[test]
fn long_units_wait_for_room(rt: HostRuntime) -> Result<(), Memory> {
    assert_eq!(rt; peak(Kind::Fba, 96000), 2999);
    assert_eq!(rt; Pace::of(Kind::Fbb, 192000).peak, 799);
    let mut fifo = Fifo::open(rt.alloc(), Kind::Fba, 96000)?;
    let times = [
        place_all(&mut fifo, 30, 4000),
        place_all(&mut fifo, 1, 4000),
        place_all(&mut fifo, 24, 4000),
    ];
    assert_eq!(rt; times, [Ok(4959), Ok(7200), Ok(11304)]);
    assert_eq!(rt;
        fifo.place(4000),
        Err(NoRoom {
            unit: 55,
            bytes: 4000
        })
    );
    assert_eq!(rt; fifo.next_output(), 11600);
    fifo.reset(Kind::Fba, 48000);
    assert_eq!(rt; place_all(&mut fifo, 1640, 1000), Ok(65560));
    Ok(())
}

#[test]
fn a_unit_before_its_turn_has_no_timing(rt: HostRuntime) -> Result<(), Memory> {
    let mut checker = Checker::open(rt.alloc(), Kind::Fba, 48000)?;
    assert!(rt; checker.unit(0, Some(3600), 58));
    assert!(rt; !checker.unit(39, None, 10));
    assert!(rt; !checker.unit(80, None, 10));
    checker.reset(Kind::Fba, 48000);
    assert!(rt; checker.unit(0, Some(3600), 58));
    assert!(rt; checker.unit(40, Some(3640), 10));
    assert!(rt; !checker.unit(80, Some(3640), 10));
    Ok(())
}

/// 1000 bytes take 22 sample periods at 48 kHz, and 4000 bytes 171 at 96 kHz.
#[test]
fn a_unit_has_arrived_when_it_is_output(rt: HostRuntime) -> Result<(), Memory> {
    let mut checker = Checker::open(rt.alloc(), Kind::Fba, 48000)?;
    assert!(rt; checker.unit(3578, Some(3600), 1000));
    checker.reset(Kind::Fba, 48000);
    assert!(rt; !checker.unit(3579, Some(3600), 1000));
    checker.reset(Kind::Fba, 96000);
    assert!(rt; checker.unit(7029, Some(7200), 4000));
    checker.reset(Kind::Fba, 96000);
    assert!(rt; !checker.unit(7030, Some(7200), 4000));
    Ok(())
}
