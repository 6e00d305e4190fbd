//! Rows of whole calls: their words, the files that are there, and what each answers and makes. Its texts are the examples'
//! of the same cases, and the summary of the trial is that of a program of others.

use emtp_run::Status;

/// 100 V over two resistances of 1 ohm, for three steps of 0.1 ms: the middle stands at 50 V from step 1 on.
pub const DIVIDER: &str = concat!(
    "BEGIN NEW DATA CASE\n",
    "   1.E-4   3.E-4\n",
    "       1       1\n",
    "  SRC   MID                  1.0\n",
    "  MID                        1.0\n",
    "BLANK\n",
    "BLANK\n",
    "11SRC        100.0\n",
    "BLANK\n",
    "  MID\n",
    "BLANK\n",
);

const CFG: &str = concat!(
    "EMTP,CASE,1999\r\n",
    "1,1A,0D\r\n",
    "1,V MID,,,V,0.002,0,0,-32767,32767,1,1,P\r\n",
    "60\r\n",
    "0\r\n",
    "0,4\r\n",
    "01/01/2000,00:00:00.000000\r\n",
    "01/01/2000,00:00:00.000000\r\n",
    "ASCII\r\n",
    "100\r\n",
);

const DAT: &str = concat!(
    "1,0,0\r\n",
    "2,1,25000\r\n",
    "3,2,25000\r\n",
    "4,3,25000\r\n",
    "\x1a"
);

const NOTE: &str = "DONE STEPS 3 SAMPLES 4 REDONE 0\n";

/// One resistance between two nodes and nothing else: what eliminates the first leaves 0 for the second.
const UNBOUND: &str = concat!(
    "BEGIN NEW DATA CASE\n",
    "   1.E-4   1.E-4\n",
    "       1       1\n",
    "  A     B                    1.0\n",
    "BLANK\n",
    "BLANK\n",
    "BLANK\n",
    "  A\n",
    "BLANK\n",
);

const UNBOUND_CFG: &str = concat!(
    "EMTP,CASE,1999\r\n",
    "1,1A,0D\r\n",
    "1,V A,,,V,0.000000001,0,0,-32767,32767,1,1,P\r\n",
    "60\r\n",
    "0\r\n",
    "0,1\r\n",
    "01/01/2000,00:00:00.000000\r\n",
    "01/01/2000,00:00:00.000000\r\n",
    "ASCII\r\n",
    "100\r\n",
);

const UNBOUND_DAT: &str = "1,0,0\r\n\x1a";

const UNBOUND_NOTE: &str = "ENDED STEP 1 ZEROPIVOT B SAMPLES 1 REDONE 0\n";

/// The note on a case of no bytes.
const REFUSED: &str = "BAD CARD LINE 1 COLUMN 1 REASON 16 MissingSection\n";

/// The summary of one section, by a program of others.
const TRIAL: &str =
    "TRIAL 1 STEPS 2000 SAMPLES 101 REDONE 4 PEAK 145543352911428 SUM 1189507906597277\n";

/// A switch that opens at a zero of its current, between a step and a ramp, for five steps.
const BREAKER: &str = concat!(
    "BEGIN NEW DATA CASE\n",
    "   1.E-4   5.E-4\n",
    "       1       1\n",
    "  S1    A                     1.\n",
    "  B     S2                    1.\n",
    "BLANK\n",
    "  A     B            -1.     2.E-4                                             1\n",
    "BLANK\n",
    "11S1            250.\n",
    "12S2            600.               6.E-4\n",
    "BLANK\n",
    "BLANK\n",
);

/// The times of its card, the switch that never opens, and the one that stays open.
const TIMES: &str = "-1. 2.E-4\n* -\n1. -\n";

const PEAKS: &str = concat!(
    "ROW 1 DONE PEAKS 75\n",
    "ROW 2 DONE PEAKS 125\n",
    "ROW 3 DONE PEAKS 0\n",
    "MAX 1 125 ROW 2\n",
);

/// The note on a table of no bytes.
const NO_ROW: &str = "BAD ROW LINE 1 ITEM 1\n";

/// The data of the divider without their last line and their end mark.
const SHORT_DAT: &str = "1,0,0\r\n2,1,25000\r\n3,2,25000\r\n";

const SAME: &str = "AUDIT SAME SAMPLES 4\n";

const DIFFERS: &str = "DIFFERS DAT LINE 4 FIELD 1 MISSING\n";

/// The divider with a voltage of 100 V at 60 Hz.
const STEADY: &str = concat!(
    "BEGIN NEW DATA CASE\n",
    "   1.E-4   3.E-4\n",
    "       1       1\n",
    "  SRC   MID                  1.0\n",
    "  MID                        1.0\n",
    "BLANK\n",
    "BLANK\n",
    "14SRC           100.       60.\n",
    "BLANK\n",
    "  MID\n",
    "BLANK\n",
);

const VOLTAGES: &str = concat!(
    "PHASOR F 60 RESIDUAL 0\n",
    "NODE SRC RE 100 IM 0\n",
    "NODE MID RE 50 IM 0\n",
);

/// The resistance between two nodes, with a current of 1 A at 60 Hz into the first.
const UNBOUND_STEADY: &str = concat!(
    "BEGIN NEW DATA CASE\n",
    "   1.E-4   1.E-4\n",
    "       1       1\n",
    "  A     B                    1.0\n",
    "BLANK\n",
    "BLANK\n",
    "14A     -1        1.       60.\n",
    "BLANK\n",
    "  A\n",
    "BLANK\n",
);

const NO_VOLTAGES: &str = "PHASOR ENDED ZEROPIVOT B\n";

/// The note on a steady state without a frequency, and that on a scan whose source is one of voltage.
const NO_SOURCE: &str = "REFUSED LINE 1 REASON 32 NoSource\n";

const NO_PROBE: &str = "REFUSED LINE 1 REASON 40 Probe\n";

/// 50 ohm to ground, with a current of 2 A.
const RESISTOR: &str = concat!(
    "BEGIN NEW DATA CASE\n",
    "   1.E-4   3.E-4\n",
    "       1       1\n",
    "  A                          50.\n",
    "BLANK\n",
    "BLANK\n",
    "14A     -1        2.       60.\n",
    "BLANK\n",
    "BLANK\n",
);

const IMPEDANCES: &str = concat!(
    "F 50 RE 50 IM 0\n",
    "F 100 RE 50 IM 0\n",
    "F 150 RE 50 IM 0\n",
);

pub const RUN: &[&str] = &["run", "a.case", "a.cfg", "a.dat"];

const BATCH: &[&str] = &["batch", "a.case", "b"];

const AUDIT: &[&str] = &["audit", "a.case", "b", "c"];

const PHASOR: &[&str] = &["phasor", "a.case"];

const SCAN: &[&str] = &["scan", "a.case", "50", "150", "50"];

/// A whole call, and what it answers and makes where no call of the cabinet fails.
#[derive(Clone, Copy)]
pub struct Row {
    pub words: &'static [&'static str],
    /// The bytes of the files `a.case`, `b` and `c`, and how many of these are read.
    pub files: &'static [&'static str; 3],
    pub read: usize,
    pub status: Status,
    /// The status where an output can't be made.
    pub cut: Status,
    /// The bytes of the cfg, the dat, the note and the summary, where each is made.
    pub made: &'static [Option<&'static str>; 4],
}

macro_rules! rows {
    ($($words:expr, $files:expr, $read:expr => $status:ident, $cut:ident, $made:expr;)*) => {
        &[$(Row {
            words: $words,
            files: &$files,
            read: $read,
            status: Status::$status,
            cut: Status::$cut,
            made: &$made,
        }),*]
    };
}

/// A run to its end, one with an early end, a refused card, words that don't fit, a trial; a batch, a refused row, and a
/// refused card beside a table; an audit that finds the record the same, one that finds it cut, and a refused card beside a
/// record; a steady state, one without a solution, one without a frequency, and a refused card; a scan, one whose source is
/// refused, and a refused card.
pub const ROWS: &[Row] = rows! {
    RUN, [DIVIDER, "", ""], 1 => Done, WriteFault, [Some(CFG), Some(DAT), Some(NOTE), None];
    RUN, [UNBOUND, "", ""], 1 => Ended, WriteFault, [Some(UNBOUND_CFG), Some(UNBOUND_DAT), Some(UNBOUND_NOTE), None];
    RUN, ["", "", ""], 1 => BadCard, BadCard, [None, None, Some(REFUSED), None];
    &["run", "a.case", "a.dat", "a.dat"], [DIVIDER, "", ""], 0 => Usage, Usage, [None, None, Some("USAGE\n"), None];
    &["trial", "1"], [DIVIDER, "", ""], 0 => Done, WriteFault, [None, None, None, Some(TRIAL)];
    BATCH, [BREAKER, TIMES, ""], 2 => Done, WriteFault, [None, None, None, Some(PEAKS)];
    BATCH, [BREAKER, "", ""], 2 => BadRow, BadRow, [None, None, Some(NO_ROW), None];
    BATCH, ["", TIMES, ""], 2 => BadCard, BadCard, [None, None, Some(REFUSED), None];
    AUDIT, [DIVIDER, CFG, DAT], 3 => Done, WriteFault, [None, None, None, Some(SAME)];
    AUDIT, [DIVIDER, CFG, SHORT_DAT], 3 => Differs, Differs, [None, None, Some(DIFFERS), None];
    AUDIT, ["", CFG, DAT], 3 => BadCard, BadCard, [None, None, Some(REFUSED), None];
    PHASOR, [STEADY, "", ""], 1 => Done, WriteFault, [None, None, None, Some(VOLTAGES)];
    PHASOR, [UNBOUND_STEADY, "", ""], 1 => Ended, WriteFault, [None, None, Some(NO_VOLTAGES), None];
    PHASOR, [DIVIDER, "", ""], 1 => Refused, Refused, [None, None, Some(NO_SOURCE), None];
    PHASOR, ["", "", ""], 1 => BadCard, BadCard, [None, None, Some(REFUSED), None];
    SCAN, [RESISTOR, "", ""], 1 => Done, WriteFault, [None, None, None, Some(IMPEDANCES)];
    SCAN, [STEADY, "", ""], 1 => Refused, Refused, [None, None, Some(NO_PROBE), None];
    SCAN, ["", "", ""], 1 => BadCard, BadCard, [None, None, Some(REFUSED), None];
};
