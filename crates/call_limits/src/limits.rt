//! The numbers up to which calls may be asked.
ghost use Rattle.std.specs.Prelude.{◌≡◌, ◌^◌};
ghost use Rattle.csv_records.specs.Records.{most_file_bytes};
ghost use Rattle.date_rows.specs.DateTables.{most_numbers};
ghost use Rattle.release_nets.specs.PlannedNets.{greatest_period};
ghost use Rattle.series_form.specs.SeriesLimits.{greatest_value, monomial_bound};
ghost use Rattle.teg_net.specs.Limits.{greatest_every, greatest_target_time, most_input_dates, most_place_tokens, most_places, most_target_tokens, most_transitions};
ghost use Rattle.teg_settle.specs.LimitRefusals.{greatest_limit};

/// The most transitions of a net (`Net::new`, `Net::checked`, `NetBuilder::add_transition`).
pub const MOST_TRANSITIONS: u32 = 400;

/// The most places of a net (`Net::new`, `Net::checked`, `NetBuilder::add_place`).
pub const MOST_PLACES: u32 = 4_000;

/// The most initial tokens of a place (`Net::set_tokens`, `LiveNet::set_tokens`,
/// `LiveNet::add_tokens`).
pub const MOST_PLACE_TOKENS: u32 = 1_000;

/// The most dates of an input list (`Net::new`, `Net::checked`, `NetBuilder::add_input`).
pub const MOST_INPUT_DATES: usize = 100_000;

/// The most firings after which an input list goes on (`Net::new`, `Net::checked`,
/// `NetBuilder::add_input`).
pub const GREATEST_EVERY: u32 = 1_000;

/// The most rows of a matrix, and the most columns (`Matrix::new`, `identity`, `zero`).
pub const MOST_MATRIX_ROWS: usize = 4_096;

/// The most numbers of a table of dates (`first_dates`).
pub const MOST_LISTED_NUMBERS: u32 = 10_000;

/// The most bytes of a file (`read_due`, `read_log`, `read_endless`, `read_timetable`).
pub const MOST_FILE_BYTES: usize = 4_194_304;

/// The greatest limit of the rows of a search (`settle_within`, `transfer`, `transfer_times`,
/// `spread`).
pub const GREATEST_LIMIT: u32 = 200_000;

/// The greatest period of a timetable, in the user's unit (`spread`, `Planned::checked`).
pub const GREATEST_PERIOD: u64 = 1_000_000;

/// The greatest date of a firing, in the user's unit (`Game::fire`, `net_after`,
/// `live_net_after`).
pub const GREATEST_FIRED_DATE: u64 = 1_000_000_000_000_000_000;

/// The most firings of a run: a game with fewer takes one more (`Game::fire`), and a net is made of
/// so many (`net_after`, `live_net_after`).
pub const MOST_FIRINGS: u64 = 1_099_511_627_776;

/// The greatest time of a target ratio in lowest terms, in the user's unit (`is_target`, `size`).
pub const GREATEST_TARGET_TIME: u64 = 1_000_000_000_000;

/// The most tokens of a target ratio in lowest terms (`is_target`, `size`).
pub const MOST_TARGET_TOKENS: u64 = 1_000_000;

/// The greatest magnitude of a value and of the step of a series, in the user's unit
/// (`Series::constant`).
pub const GREATEST_SERIES_VALUE: u128 = 1_000_000_000_000_000_000;

/// The greatest shift at which a series is asked (`Series::at`).
pub const GREATEST_SERIES_SHIFT: u64 = 1_000_000_000_000_000_000;

/// The shift of a monomial and the magnitude of its date are below this (`Series::monomial`,
/// `evaluate`).
pub const MONOMIAL_BOUND: u64 = 10_000_000_000_000_000_000;

/// The most nodes of an expression (`evaluate`).
pub const MOST_EXPRESSION_NODES: u32 = 4_096;

/// The law that each of these constants is the number of the definition that contracts name, or
/// the number that they write. It does nothing when it runs.
pub fn limits_are_those_of_calls()
    ensures transitions { MOST_TRANSITIONS ≡ most_transitions }
    ensures places { MOST_PLACES ≡ most_places }
    ensures tokens { MOST_PLACE_TOKENS ≡ most_place_tokens }
    ensures input_dates { MOST_INPUT_DATES ≡ most_input_dates }
    ensures every { GREATEST_EVERY ≡ greatest_every }
    ensures matrix_rows { MOST_MATRIX_ROWS ≡ 4096 }
    ensures listed { MOST_LISTED_NUMBERS ≡ most_numbers }
    ensures bytes { MOST_FILE_BYTES ≡ most_file_bytes }
    ensures limit { GREATEST_LIMIT ≡ greatest_limit }
    ensures period { GREATEST_PERIOD ≡ greatest_period }
    ensures fired { GREATEST_FIRED_DATE ≡ 10 ^ 18 }
    ensures firings { MOST_FIRINGS ≡ 2 ^ 40 }
    ensures target_time { GREATEST_TARGET_TIME ≡ greatest_target_time }
    ensures target_tokens { MOST_TARGET_TOKENS ≡ most_target_tokens }
    ensures value { GREATEST_SERIES_VALUE ≡ greatest_value }
    ensures shift { GREATEST_SERIES_SHIFT ≡ greatest_value }
    ensures monomial { MONOMIAL_BOUND ≡ monomial_bound }
    ensures expression { MOST_EXPRESSION_NODES ≡ 4096 }
{}
