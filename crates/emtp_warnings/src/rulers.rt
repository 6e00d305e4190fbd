//! Which columns of a card are read: one ruler a kind of card, with a mark in each column.
//!
//! A run of one mark is a field. A digit marks a field that holds a number, a letter any other field, a capital one a name of
//! a list, which may stand in any of its fields; a blank marks a column that is not read. Fields side by side have different
//! marks.

/// A line whose columns all belong to it, as one that ends a section.
pub(crate) const FREE: &[u8] =
    b"aaaaaaaaaaaaaaaaaaaaaaaaaaaaaaaaaaaaaaaaaaaaaaaaaaaaaaaaaaaaaaaaaaaaaaaaaaaaaaaa";

/// The tolerance: its words, and the number.
pub(crate) const TOLERANCE: &[u8] = b"aaaaaaaaaaaaaaaaaa      11111111";

/// The first miscellaneous card: DELTAT, TMAX, XOPT, COPT.
pub(crate) const FIRST_RUN: &[u8] = b"11111111222222223333333344444444";

/// The second miscellaneous card: IOUT, IPLOT.
pub(crate) const SECOND_RUN: &[u8] = b"1111111122222222";

/// A series branch: type, BUS1 to BUS4, R, L, C, what is asked.
pub(crate) const SERIES: &[u8] =
    b"11aaaaaabbbbbbccccccdddddd222222333333444444                                   5";

/// A series branch after a vintage card that makes its fields wide.
pub(crate) const WIDE_SERIES: &[u8] =
    b"11aaaaaabbbbbbccccccdddddd222222222222222233333333333333334444444444444444     5";

/// A branch that takes the values of another, and each reactor.
pub(crate) const COPY: &[u8] =
    b"11aaaaaabbbbbbccccccdddddd                                                     2";

/// A line: type, BUS1 to BUS4, R, A, B, length, ILINE, what is asked.
pub(crate) const LINE: &[u8] =
    b"11aaaaaabbbbbbccccccdddddd22222233333344444455555566                           7";

/// The third phase of a line: type, BUS1, BUS2, what is asked.
pub(crate) const THIRD_PHASE: &[u8] =
    b"11aaaaaabbbbbb                                                                 2";

/// A nonlinear resistor: flashover, delay and jump where a series branch has R, L and C.
pub(crate) const RESISTOR: &[u8] =
    b"11aaaaaabbbbbbccccccdddddd222222333333444444                                   5";

/// A point, or a pair of times.
pub(crate) const POINT: &[u8] = b"11111111111111112222222222222222";

/// The card 9999 that ends points.
pub(crate) const ENDING: &[u8] = b"1111111111111111";

/// A time switch: T-CLOSE, T-OPEN, margin, the word, what is asked.
pub(crate) const TIME_SWITCH: &[u8] =
    b"11aaaaaabbbbbb222222222233333333334444444444          cccccccccc               5";

/// A measuring switch: the word, what is asked.
pub(crate) const MEASURING: &[u8] =
    b"11aaaaaabbbbbb                                        cccccccccc               2";

/// A valve: ignition, holding current, control, what is asked.
pub(crate) const VALVE: &[u8] =
    b"11aaaaaabbbbbb22222222223333333333                              cccccc         4";

/// A controlled switch: control, what is asked.
pub(crate) const CONTROLLED: &[u8] =
    b"11aaaaaabbbbbb                                                  cccccc         2";

/// A source of type 11: type, name, kind, amplitude, TSTART, TSTOP.
pub(crate) const STEP: &[u8] =
    b"11aaaaaa223333333333                                        44444444445555555555";

/// A source of type 12, with its T0.
pub(crate) const RAMP: &[u8] =
    b"11aaaaaa223333333333          4444444444                    55555555556666666666";

/// A source of type 14, with frequency, phase and A1.
pub(crate) const COSINE: &[u8] =
    b"11aaaaaa223333333333444444444455555555556666666666          77777777778888888888";

/// A source of type 60, which has no amplitude.
pub(crate) const VARIABLE: &[u8] =
    b"11aaaaaa22                                                  33333333334444444444";

/// An output card that asks for all nodes.
pub(crate) const ALL_NODES: &[u8] = b"11";

/// An output card with 13 names.
pub(crate) const NAMES: &[u8] =
    b"11AAAAAABBBBBBCCCCCCDDDDDDEEEEEEFFFFFFGGGGGGHHHHHHIIIIIIJJJJJJKKKKKKLLLLLLMMMMMM";

/// A block: order, name, five inputs with their signs, gain, limits, named limits.
pub(crate) const BLOCK: &[u8] =
    b"11aaaaaa  bcccccc deeeeee fgggggg hiiiiii jkkkkkk 222222333333444444llllllmmmmmm";

/// The coefficients of the powers 0 to 7 of s.
pub(crate) const POLYNOMIAL: &[u8] =
    b"11111111112222222222333333333344444444445555555555666666666677777777778888888888";

/// A source of the control of type 11: type, name, amplitude, TSTART, TSTOP.
pub(crate) const LEVEL: &[u8] =
    b"11aaaaaa  2222222222                                        33333333334444444444";

/// One of type 14, with frequency, phase and A1.
pub(crate) const TACS_COSINE: &[u8] =
    b"11aaaaaa  2222222222333333333344444444445555555555          66666666667777777777";

/// One of type 23, with period and width.
pub(crate) const PULSE: &[u8] =
    b"11aaaaaa  222222222233333333334444444444                    55555555556666666666";

/// One of type 24, with its period.
pub(crate) const SAW: &[u8] =
    b"11aaaaaa  22222222223333333333                              44444444445555555555";

/// One of type 90, 91 or 93, which has a name alone.
pub(crate) const MEASURED: &[u8] = b"11aaaaaa";

/// A device: group, name, code, five inputs with their signs, A, B, C, D, E.
pub(crate) const DEVICE: &[u8] =
    b"11aaaaaa22bcccccc deeeeee fgggggg hiiiiii jkkkkkk 333333444444555555llllllmmmmmm";

/// A formula: group, name, the blank code, `=`, the expression.
pub(crate) const FORMULA: &[u8] =
    b"11aaaaaa22bccccccccccccccccccccccccccccccccccccccccccccccccccccccccccccccccccccc";
