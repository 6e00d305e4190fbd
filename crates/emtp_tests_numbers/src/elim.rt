//! Plain elimination at two systems that need each rounding.
ghost use Rattle.std.specs.Prelude.{◌≡◌, ◌*◌, ◌≤◌, length};

use crate::table::{P, filled};
use emtp_elim::eliminate_plain;
use std::alloc::Global;
use std::process::Abort;

/// Whether elimination answers these unknowns.
fn has_solution(
    rt: &impl Abort,
    alloc: Global,
    cells: &[i64],
    right: &[i128],
    unknowns: &[i64],
) -> bool
    requires few { length unknowns.now ≤ 1000 }
    requires cells { length cells.now ≡ length unknowns.now * length unknowns.now }
    requires right { length right.now ≡ length unknowns.now }
{
    let rows = filled(alloc, unknowns.len(), 0, cells).expect(rt, "memory");
    let mut x = vec![in alloc; 0i64; unknowns.len()].expect(rt, "memory");
    eliminate_plain(alloc, &rows, right, x.as_mut_slice()).is_ok() && x.as_slice() == unknowns
}

#[test]
fn rounds_ratios_products_and_unknowns(rt: HostRuntime) {
    let alloc = rt.alloc();
    let divider = [P, 0, -1_000 * P, 1_500 * P];
    assert!(rt;
        has_solution(
            &rt,
            alloc,
            &divider,
            &[1_000_000_000, 0],
            &[1_000_000_000, 666_666_667]
        )
    );
    let star = [3 * P, -P, -P, -P, 7 * P, -2 * P, -P, -2 * P, 11 * P];
    let unknowns = [324_873_097, 30_456_853, -55_837_563];
    assert!(rt;
        has_solution(
            &rt,
            alloc,
            &star,
            &[1_000_000_000, 0, -999_999_999],
            &unknowns
        )
    );
}
