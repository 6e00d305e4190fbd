//! The numbers that a reader judges by and the laws step with, by hand.

ghost use Rattle.emtp_case.specs.held.Control.{HasRangeOfA};

use crate::fixtures::RUN;
use emtp_case::{
    Branch, Device, DeviceCode, Group, Items, Line, Point, Trio, capacitor_impedance,
    inductor_impedance, line_impedance, series_impedance, slope,
};
use std::alloc::Global;

/// Points at 1 A and 100 V, or 1 A and 100 Wb, in nA and nV or pWb.
const NEAR: Point = Point {
    current: 1_000_000_000,
    other: 100_000_000_000,
};

const FAR: Point = Point {
    current: 4_000_000_000,
    other: 250_000_000_000,
};

#[test]
fn impedances_of_a_step(rt: HostRuntime) {
    let dt = RUN.dt;
    // 2 * 1 mH over 100 microseconds are 20 ohm; 100 microseconds over 2 * 1 microfarad are 50 ohm.
    assert!(rt; inductor_impedance(dt, 1_000_000) == 20_000_000);
    assert!(rt; capacitor_impedance(dt, 1_000_000_000) == 50_000_000);
    assert!(rt; inductor_impedance(dt, 0) == 0 && capacitor_impedance(dt, 0) == 0);
    assert!(rt; series_impedance(dt, 1_000_000, 1_000_000, 1_000_000_000) == 71_000_000);
    assert!(rt; series_impedance(dt, 7, 0, 0) == 7);
    // 2 nH over 3 ns are 4/3 ohm, 1.333333 after rounding.
    assert!(rt; inductor_impedance(3_000, 2) == 1_333_333);
    // A quarter of 6 micro-ohm is rounded away from zero.
    assert!(rt; line_impedance(300_000_000, 4_000_000) == 301_000_000);
    assert!(rt; line_impedance(10, 6) == 12);
}

#[test]
fn slopes_of_segments(rt: HostRuntime) {
    // 150 V over 3 A are 50 ohm; 3 A over 150 mWb at 50 microseconds are 0.001 S.
    assert!(rt; slope(false, RUN.dt, NEAR, FAR) == 50_000_000);
    assert!(rt; slope(true, RUN.dt, NEAR, FAR) == 1_000_000_000);
}

#[test]
fn history_values_of_lines(rt: HostRuntime) {
    let modes = Trio {
        first: 0,
        zc: [500_000_000, 300_000_000],
        r: [0, 0],
        delay: [2_000_000_000, 1_050_000_000],
    };
    // Both ends keep each whole step and one record more: 2 * 11, and 2 * 21 + 6 * 11.
    for delay in [1_000_000_000, 1_099_999_999] {
        let line = Branch::Line(Line {
            line: 1,
            from: 1,
            to: 2,
            zc: 300_000_000,
            r: 0,
            delay,
        });
        assert!(rt; line.history_values(RUN.dt) == 22);
    }
    assert!(rt; modes.history_values(RUN.dt) == 108);
}

/// How many past values a device of this code and this number A keeps.
fn kept(alloc: Global, code: DeviceCode, a: i64) -> u64
    requires { HasRangeOfA code a }
{
    let device = Device {
        line: 1,
        var: 6,
        group: Group::Inside,
        code,
        inputs: Items::new(alloc),
        a,
        b: 0,
        c: 0,
        d: None,
        e: None,
        first: 0,
        count: 0,
    };
    device.history_values(RUN.dt)
}

#[test]
fn history_values_of_devices(rt: HostRuntime) {
    let alloc = rt.alloc();
    // A delay keeps the steps that come nearest and one more; 60 Hz have 166.7 steps of 100 microseconds, 1 MHz none.
    let are_kept = kept(alloc, DeviceCode::Delay, 349_999_999) == 4
        && kept(alloc, DeviceCode::DelayedPulse, 350_000_000) == 5
        && kept(alloc, DeviceCode::EffectiveValue, 60_000_000) == 167
        && kept(alloc, DeviceCode::EffectiveValue, 1_000_000_000_000) == 1
        && kept(alloc, DeviceCode::Integral, -5) == 0;
    assert!(rt; are_kept);
}
