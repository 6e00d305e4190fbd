//! The order of the rows of a deck.

use crate::calling::branch_count;
use emtp_card::{Cards, Refused};
use emtp_case::{Case, order};
use emtp_deck::read;
use std::alloc::Global;
use std::test::Fail;

/// Nodes with a source, with one to three ends of branches, at a switch and at an arrester.
const NETWORK: &str = concat!(
    "BEGIN NEW DATA CASE\n",
    "   1.E-4   3.E-4\n",
    "       1       1\n",
    "  SRC   MID                  1.0\n",
    "  MID   FAR                        1.0\n",
    "  MID                                    1.0\n",
    "-1A1    A2                        500. 2.E-3    1. 2\n",
    "-2B1    B2                        300. 1.E-3    1. 2\n",
    "-3C1    C2\n",
    "-1A2    END                       300. 1.E-3    1. 2\n",
    "99ARR\n",
    "              1.            100.\n",
    "            101.            200.\n",
    "            9999\n",
    "99SAT         ARR\n",
    "BLANK\n",
    "  B2    C2                                            MEASURING\n",
    "  A1                                                  MEASURING\n",
    "BLANK\n",
    "11C1            100.\n",
    "11A1            100.\n",
    "11SRC           100.\n",
    "11B1            100.\n",
    "12FAR   -1        2.               1.E-4\n",
    "BLANK\n",
    "BLANK\n",
);

/// The nodes of the rows. Sources stand at SRC, A1, B1 and C1; of the plain nodes FAR and END have one end, A2 has two and
/// MID three; B2 and C2 touch a switch, ARR and SAT an arrester.
const ROWS: [u32; 12] = [1, 4, 6, 8, 3, 10, 5, 2, 7, 9, 11, 12];

/// Whether the rows are those of these nodes, in this order, and so many of them have a known voltage.
fn rows_are(alloc: Global, case: &Case, fixed: usize, nodes: &[u32]) -> bool {
    let Ok(rows) = order(alloc, case) else {
        return false;
    };
    let count = case.parts.nodes.len();
    let mut are = count == nodes.len() && rows.fixed() == fixed;
    for (row, node) in nodes.iter().enumerate() {
        are = are && row < count && rows.node_at(row) == *node && rows.row_of(*node) == row;
    }
    drop(rows);
    are
}

/// How many branches a deck has, and whether its rows are ordered so.
fn ordered(alloc: Global, bytes: &[u8]) -> Result<(Option<usize>, bool), Refused> {
    let cards = Cards::split(alloc, bytes)?;
    let count = branch_count(alloc, &cards);
    let read = read(alloc, &cards);
    drop(cards);
    let case = read?;
    let are = rows_are(alloc, &case, 4, &ROWS);
    drop(case);
    Ok((count, are))
}

#[test]
fn orders_its_rows(rt: HostRuntime) -> Result<(), Fail> {
    assert_eq!(rt; ordered(rt.alloc(), NETWORK.as_bytes())?, (Some(9), true));
    Ok(())
}
