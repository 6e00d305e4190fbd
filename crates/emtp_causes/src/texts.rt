//! Every text that is put, each once: the definitions cite these constants. A text in pieces is put around what it names.

// ---- reasons

pub(crate) const BYTE_OUTSIDE: &[u8] = b"a byte outside of 0x20 to 0x7E";

pub(crate) const PAST_COLUMN_80: &[u8] = b"a byte past column 80";

pub(crate) const NOT_A_NUMBER: &[u8] = b"this field is no number";

pub(crate) const NOT_WHOLE: &[u8] = b"this field is no whole number";

pub(crate) const OUT_OF_RANGE: &[u8] = b"out of the field's range, or blank where it must not be";

pub(crate) const TOO_MANY_LINES: &[u8] = b"more than 100,000 lines or 9,000,000 bytes";

pub(crate) const BAD_TYPE: &[u8] = b"no type, mark or word that is known here";

pub(crate) const BAD_NAME: &[u8] = b"no name that is allowed here";

pub(crate) const BAD_IMPEDANCE: &[u8] = b"the impedance is out of range";

pub(crate) const SHORT_LINE: &[u8] = b"the travel time is below the time step";

pub(crate) const BAD_POINTS: &[u8] = b"a point out of order, out of range or out of place";

pub(crate) const BAD_ORDER: &[u8] = b"this card can't stand here";

pub(crate) const UNKNOWN_NAME: &[u8] = b"nothing has this name";

pub(crate) const TWO_SOURCES: &[u8] =
    b"a second voltage source of this node, or a second card of this variable";

pub(crate) const TOO_MANY: &[u8] = b"a limit by count is exceeded";

pub(crate) const MISSING_SECTION: &[u8] = b"the case ends before its last section does";

pub(crate) const TOO_MANY_SAMPLES: &[u8] = b"the record would have more than 4,000,000 values";

pub(crate) const BAD_EXPRESSION: &[u8] = b"no expression goes on so";

// ---- bytes and numbers

pub(crate) const A_TAB: &[u8] = b"a tab; a field's columns need blanks";

pub(crate) const END_MARK_OF_DOS: &[u8] = b"Ctrl-Z, the end mark of DOS; save the file without it";

pub(crate) const BYTE_ORDER_MARK: &[u8] =
    b"a byte-order mark; save the file without it, as plain ASCII";

pub(crate) const THE_BYTE: &[u8] = b"the byte 0x";

pub(crate) const ALLOWED_BYTES: &[u8] = b"; only 0x20 to 0x7E are allowed";

pub(crate) const A_COMMA: &[u8] = b"a comma; a number has a point";

pub(crate) const POINTS_WITHOUT_END: &[u8] =
    b"a card with 9999 in columns 1 to 16 has to end the points before this";

pub(crate) const BAD_STEP: &[u8] = b"DELTAT is blank, or isn't from 1E-9 to 1 second";

pub(crate) const NO_END_TIME: &[u8] = b"TMAX is blank";

pub(crate) const BAD_END_TIME: &[u8] = b"TMAX / DELTAT has to be from 1 to 1,000,000 steps";

pub(crate) const OTHER_UNITS: &[u8] = b"XOPT and COPT have to be 0 or blank: L is in mH, C in uF";

// ---- types, signs and words

pub(crate) const BRANCH_TYPES: &[u8] =
    b"a branch is of type 0 or blank, -1, 98 or 99 (a -1 may be followed by -2 and -3)";

pub(crate) const SWITCH_TYPES: &[u8] = b"a switch is of type 0 or blank, 11 or 13";

pub(crate) const SOURCE_TYPES: &[u8] = b"a source is of type 11, 12, 14 or 60";

pub(crate) const TACS_SOURCE_TYPES: &[u8] =
    b"a TACS source is of type 11, 14, 23, 24, 90, 91 or 93";

pub(crate) const SUPPLEMENTAL_TYPES: &[u8] = b"a supplemental card is of type 99, 88 or 98";

pub(crate) const OUTPUT_MARKS: &[u8] = b"a mark is a blank, 0 or 1";

pub(crate) const TACS_OUTPUT_MARKS: &[u8] = b"a mark is a blank or 0";

pub(crate) const VINTAGE_ENDS: &[u8] = b"a vintage card ends with 0 or 1";

pub(crate) const SIGNS: &[u8] = b"a sign is a blank, + or -";

pub(crate) const FORMULA_PLACE: &[u8] = b"a formula has its = in column 11, behind two blanks";

pub(crate) const DEVICE_CODES: &[u8] = b"a device is of code 51 to 54, 56 to 60 or 62 to 66";

pub(crate) const FIRST_CARD: &[u8] = b"the first card of a case is BEGIN NEW DATA CASE";

pub(crate) const SWITCH_WORDS: &[u8] = b"the word of a switch is MEASURING or none";

// ---- what a line was meant as

pub(crate) const SPECIAL_REQUEST: &[u8] = b"a special request card of ATP; not read here";

pub(crate) const SMALL_BLANK: &[u8] =
    b"a section ends with BLANK in capitals, or with a blank line";

pub(crate) const SMALL_COMMENT: &[u8] = b"a comment has a capital C in column 1";

pub(crate) const COMMENT_WITHOUT_BLANK: &[u8] =
    b"a comment has a C in column 1 and a blank in column 2";

// ---- kinds of lines

pub(crate) const COMMENT_LINE: &[u8] = b"a comment";

pub(crate) const SECTION_END: &[u8] = b"the end of a section";

pub(crate) const BEGIN_CARD: &[u8] = b"the card BEGIN NEW DATA CASE";

pub(crate) const TOLERANCE_CARD: &[u8] = b"the card RESIDUAL TOLERANCE";

pub(crate) const FIRST_RUN_CARD: &[u8] = b"the first miscellaneous card";

pub(crate) const SECOND_RUN_CARD: &[u8] = b"the second miscellaneous card";

pub(crate) const HYBRID_CARD: &[u8] = b"the card TACS HYBRID";

pub(crate) const BLOCK_CARD: &[u8] = b"a block card";

pub(crate) const COEFFICIENT_CARD: &[u8] = b"a card of coefficients";

pub(crate) const TACS_SOURCE_CARD: &[u8] = b"a TACS source";

pub(crate) const SUPPLEMENTAL_CARD: &[u8] = b"a supplemental card";

pub(crate) const TACS_OUTPUT_CARD: &[u8] = b"a TACS output";

pub(crate) const INITIAL_CARD: &[u8] = b"an initial condition";

pub(crate) const VINTAGE_CARD: &[u8] = b"a vintage card";

pub(crate) const BRANCH_CARD: &[u8] = b"a branch card";

pub(crate) const POINT_CARD: &[u8] = b"a point or the card that ends them";

pub(crate) const SWITCH_CARD: &[u8] = b"a switch card";

pub(crate) const SOURCE_CARD: &[u8] = b"a source card";

pub(crate) const OUTPUT_CARD: &[u8] = b"a node output card";

pub(crate) const CARD_BEHIND: &[u8] = b"a card after the last section";

pub(crate) const LINE_NUMBER: &[u8] = b"line ";

pub(crate) const READ_AS: &[u8] = b": read as ";

pub(crate) const ENDS_WHERE: &[u8] = b": the file ends where ";

pub(crate) const IS_DUE: &[u8] = b" is due\n";

pub(crate) const DUE: &[u8] = b"\tdue: ";

// ---- the names of fields over their columns

pub(crate) const TOLERANCE_FIELDS: &[u8] = b"RESIDUAL TOLERANCE      TOLER---";

pub(crate) const FIRST_RUN_FIELDS: &[u8] = b"DELTAT--TMAX----XOPT----COPT----";

pub(crate) const SECOND_RUN_FIELDS: &[u8] = b"IOUT----IPLOT---";

pub(crate) const BLOCK_FIELDS: &[u8] =
    b"ORNAME--  SINPUT-.SINPUT-.SINPUT-.SINPUT-.SINPUT-.GAIN--LOW---HIGH--LOW---HIGH--";

pub(crate) const COEFFICIENT_FIELDS: &[u8] =
    b"POWER-----POWER-----POWER-----POWER-----POWER-----POWER-----POWER-----POWER-----";

pub(crate) const TACS_SOURCE_FIELDS: &[u8] =
    b"TYNAME--  AMPLITUDE-FREQ/PER--PHASE/WID-A1--------          TSTART----TSTOP-----";

pub(crate) const OUTPUT_FIELDS: &[u8] =
    b"MKNAME--NAME--NAME--NAME--NAME--NAME--NAME--NAME--NAME--NAME--NAME--NAME--NAME--";

pub(crate) const SOURCE_FIELDS: &[u8] =
    b"TYNAME--KIAMPLITUDE-FREQUENCY-T0/PHASE--A1--------          TSTART----TSTOP-----";

pub(crate) const LINE_FIELDS: &[u8] =
    b"TYBUS1--BUS2--BUS3--BUS4--R-----A-----B-----LENGTHIL                           A";

pub(crate) const RESISTOR_FIELDS: &[u8] =
    b"TYBUS1--BUS2--BUS3--BUS4--FLASH-DELAY-JUMP--                                   A";

pub(crate) const WIDE_SERIES_FIELDS: &[u8] =
    b"TYBUS1--BUS2--BUS3--BUS4--R---------------L---------------C---------------     A";

pub(crate) const SERIES_FIELDS: &[u8] =
    b"TYBUS1--BUS2--BUS3--BUS4--R-----L-----C-----                                   A";

pub(crate) const FORMULA_FIELDS: &[u8] =
    b"GRNAME--  =EXPRESSION-----------------------------------------------------------";

pub(crate) const DEVICE_FIELDS: &[u8] =
    b"GRNAME--COSINPUT-.SINPUT-.SINPUT-.SINPUT-.SINPUT-.A-----B-----C-----D-----E-----";

pub(crate) const CHARACTERISTIC_FIELDS: &[u8] = b"CURRENT---------VOLTAGE/FLUX----";

pub(crate) const PAIR_FIELDS: &[u8] = b"INPUT/CLOSE-----OUTPUT/OPEN-----";

pub(crate) const VALVE_FIELDS: &[u8] =
    b"TYBUS1--BUS2--IGNITION--HOLDING---                              CONTRO         A";

pub(crate) const TIME_SWITCH_FIELDS: &[u8] =
    b"TYBUS1--BUS2--T-CLOSE---T-OPEN----MARGIN----          WORD------               A";

// ---- sections

pub(crate) const THE_SECTION: &[u8] = b"The ";

pub(crate) const ENDED_AT_LINE: &[u8] = b" ended at line ";

pub(crate) const WHICH_IS_BLANK: &[u8] = b", which is blank";

pub(crate) const BLOCKS: &[u8] = b"blocks";

pub(crate) const TACS_SOURCES: &[u8] = b"TACS sources";

pub(crate) const SUPPLEMENTAL_CARDS: &[u8] = b"supplemental cards";

pub(crate) const TACS_OUTPUTS: &[u8] = b"TACS outputs";

pub(crate) const INITIAL_CONDITIONS: &[u8] = b"initial conditions";

pub(crate) const BRANCHES: &[u8] = b"branches";

pub(crate) const SWITCHES: &[u8] = b"switches";

pub(crate) const SOURCES: &[u8] = b"sources";

pub(crate) const NODE_OUTPUTS: &[u8] = b"node outputs";

// ---- a refusal

pub(crate) const LONG_CASE: &[u8] = b"The case has more than 100,000 lines or 9,000,000 bytes.\n";

pub(crate) const THIS_CARD: &[u8] = b"\nLine ";

pub(crate) const IS_READ_AS: &[u8] = b" is read as ";

pub(crate) const CASE_ENDS: &[u8] = b"The case ends behind line ";

pub(crate) const WHERE: &[u8] = b", where ";

pub(crate) const CARD_IS_DUE: &[u8] = b" is due; a line BLANK ends a section.\n";

// ---- an early end

pub(crate) const THE_STEADY_STATE: &[u8] = b"the steady state";

pub(crate) const STEP: &[u8] = b"step ";

pub(crate) const IN: &[u8] = b"In ";

pub(crate) const AT: &[u8] = b"At ";

pub(crate) const NEAR: &[u8] = b"Near ";

pub(crate) const TIED: &[u8] =
    b" closed switches join two nodes with voltage sources, or one with ground, at ";

pub(crate) const TIED_CURE: &[u8] =
    b". Put the\nsource's impedance between source and switch, or see to it that the closed times of the switches don't overlap.\n";

pub(crate) const STEADY_PIVOT_CURE: &[u8] =
    b" only reactances or lines meet, or nothing ties it, or the part of the network that it is in, to\nground or to a source. Of reactances, put in series the small resistance that each reactor has; else a large\nresistance to ground, as 1.E6 ohm, does. Look also for a name that is spelt in two ways; docs/tools.md says more.\n";

pub(crate) const NOTHING_TIES: &[u8] = b"Nothing ties ";

pub(crate) const PIVOT: &[u8] =
    b", or the part of the network that it is in, to ground or to a source in ";

pub(crate) const PIVOT_CURE: &[u8] =
    b".\nA large resistance to ground, as 1.E6 ohm, does; look also for a name that is spelt in two ways, and for what is\nleft behind an open switch.\n";

pub(crate) const STEADY_RANGE_CURE: &[u8] =
    b" a number left its range in the steady state: a current above 1E9 A, a matrix entry above 1E5 S, or a\nconductance that is too small beside the susceptance there. Put the small resistance in series that each reactor has,\nor, where only lines meet, a smaller resistance to ground, as 1.E4 ohm; docs/tools.md says more.\n";

pub(crate) const RANGE: &[u8] = b" a number left its range in ";

pub(crate) const RANGE_CURE: &[u8] =
    b": a voltage above 1E9 V, a current above 1E9 A, a\nmatrix entry above 1E5 S. Where an inductance carries i, its voltage 2 L i / DELTAT has to stay below 1E9 V. Without a\nlarger DELTAT this helps: the inductance in pieces in series, or, of a source, a current source beside its inductance in\nplace of the voltage source behind it. Look also for a value that stands one column off, and for resistances of\nmicro-ohm: a closed switch joins nodes exactly.\n";

pub(crate) const RESIDUAL: &[u8] = b"The currents of a node don't cancel within the tolerance in ";

pub(crate) const RESIDUAL_NODE: &[u8] = b". The node, and what rounding leaves\nthere in nA: ";

pub(crate) const RESIDUAL_CURE: &[u8] =
    b". Very large conductances beside very small ones do that. Join nodes by a switch\nin place of a tiny resistance, or give a card RESIDUAL TOLERANCE.\n";

pub(crate) const LOOP_AROUND: &[u8] = b"The blocks around ";

pub(crate) const LOOP: &[u8] = b" form a loop whose gains multiply to 1, so that ";

pub(crate) const LOOP_CURE: &[u8] =
    b" has no\nsolution. Change a gain, or break the loop by a card 98, which reads the value of the last step.\n";

pub(crate) const TACS_RANGE_CURE: &[u8] =
    b" left its range: above 1E9 in magnitude, divided by 0, or the root of a number below\n0. Give a block limits, make a gain smaller, or test the divisor before.\n";

// ---- no steady state

pub(crate) const STEADY_SIZE: &[u8] = b"the case has more than 500 nodes.\n";

pub(crate) const STEADY_NO_SOURCE: &[u8] =
    b"the case has no source of type 14 with a frequency above 0.\n";

pub(crate) const STEADY_PROBE: &[u8] =
    b"a scan wants one source alone: a current source of type 14 with phase 0 and an amplitude above 0.\n";

pub(crate) const STEADY_CONTROL: &[u8] = b"a steady state has no control.\n";

pub(crate) const STEADY_SWITCH: &[u8] =
    b"a steady state has no valves and no controlled switches.\n";

pub(crate) const STEADY_NONLINEAR: &[u8] = b"a steady state has no branches of type 98 or 99.\n";

pub(crate) const STEADY_LOSS: &[u8] = b"a steady state has no single lines with resistance.\n";

pub(crate) const STEADY_PHASES: &[u8] = b"a steady state has no three-phase lines.\n";

pub(crate) const STEADY_IMPEDANCE: &[u8] =
    b"the impedance of this branch at the frequency is out of range.\n";

pub(crate) const STEADY_SOURCE: &[u8] = b"all sources have to be cosines of one frequency.\n";

// ---- words that are no command

pub(crate) const NO_COMMAND: &[u8] = b"No command is given.\n";

pub(crate) const NOTHING: &[u8] = b"nothing";

pub(crate) const MORE_WORDS: &[u8] = b"These are more words than any command has.\n";

pub(crate) const RECORD_FORM: &[u8] = b"CASE CFG DAT";

pub(crate) const CASE_FORM: &[u8] = b"CASE";

pub(crate) const BATCH_FORM: &[u8] = b"CASE TIMES";

pub(crate) const SCAN_FORM: &[u8] = b"CASE F0 F1 DF";

pub(crate) const TRIAL_FORM: &[u8] = b"N";

pub(crate) const NO_COMMAND_NAMED: &[u8] = b"No command is named ";

pub(crate) const BEHIND: &[u8] = b"Behind ";

pub(crate) const STANDS: &[u8] = b" stands ";

pub(crate) const AND_HERE: &[u8] = b", and here ";

pub(crate) const EMPTY_NAME: &[u8] = b"A name of a file is empty.\n";

pub(crate) const BEGINS_WITH_DASH: &[u8] = b" begins with a dash, so it names no file; ./";

pub(crate) const DOES: &[u8] = b" does.\n";

pub(crate) const STANDS_TWICE: &[u8] = b" stands twice; the files have to differ.\n";

pub(crate) const TRIAL_NUMBER: &[u8] = b"N is a whole number from 1 to 900, and ";

pub(crate) const IS_NOT: &[u8] = b" isn't.\n";

pub(crate) const FALLING_SCAN: &[u8] = b"F0 is above F1.\n";

pub(crate) const LONG_SCAN: &[u8] = b"These are more than 10,000 frequencies.\n";

pub(crate) const NO_FREQUENCY: &[u8] =
    b" is no frequency: a whole number of hertz from 1 to 10000000.\n";

// ---- items of a row, fields of a line

pub(crate) const MISSING_ITEM: &[u8] =
    b"an item is missing: a row has a closing and an opening time for each time switch of the case";

pub(crate) const CLOSING_TIME: &[u8] =
    b"a closing time is a number of seconds, or * for the card's own";

pub(crate) const EXTRA_ITEM: &[u8] =
    b"an item too many: a row has a closing and an opening time for each time switch of the case";

pub(crate) const NO_TIME: &[u8] =
    b"no time: a number of seconds, * for the card's own or, as an opening time, - for never";

pub(crate) const MISSING_LINE: &[u8] = b"the file ends before this line";

pub(crate) const MISSING_FIELD: &[u8] = b"a field isn't there";

pub(crate) const EXTRA_LINE: &[u8] = b"a line too many";

pub(crate) const EXTRA_FIELD: &[u8] = b"a field too many";

pub(crate) const WRONG_FIELD: &[u8] = b"this isn't that of the case's own record";

pub(crate) const NO_FIELD_NUMBER: &[u8] = b"no number as it has to be here, or out of its range";

// ---- records and tables

pub(crate) const LONG_RECORD: &[u8] = b" has more than 64,000,000 bytes.\n";

pub(crate) const THIS_LINE: &[u8] = b"This is line ";

pub(crate) const OF_FILE: &[u8] = b" of ";

pub(crate) const ITS_FIELD: &[u8] = b", field ";

pub(crate) const FIELD_END: &[u8] = b".\n";

pub(crate) const LONG_TABLE: &[u8] = b"The table has more than 9,000,000 bytes.\n";

pub(crate) const NO_ROW: &[u8] = b"The table has no row.\n";

pub(crate) const ROW_TOO_MANY: &[u8] = b"This is row 1,001; a table has at most 1,000.\n";
