// Time, in whole numbers: starts, day fractions, dates and stamps.
#![tactic(auto)]

ghost use Rattle.std.specs.Prelude.{◌≡◌, ◌+◌, ◌*◌, ◌-◌, ◌^◌, ◌≤◌, ◌<◌};
ghost use Rattle.base.specs.Limits.{offset_limit};
ghost use Rattle.base.specs.inner.Answers.{Answers};
ghost use Rattle.base.specs.inner.Decides.{Decides};
ghost use Rattle.clock.specs.Start.{day_ms, start_limit, Start, DayFraction};
ghost use Rattle.clock.specs.Date.{leap, month_days, before, before_year, Date};
ghost use Rattle.clock.specs.Stamp.{Time, Stamp};
ghost use Rattle.clock.specs.inner.Days.{DayWithin};

// The last start that a trace may have, in milliseconds.
pub const START_LIMIT: u64 = 8_639_999_999_999;

// The milliseconds of a day.
pub const DAY_MS: u64 = 86_400_000;

// The last day that the stamp of a line may lie on where it is read: 13.10.2173.
pub const LAST_DAY: u64 = 99_999;

// A day of the Gregorian calendar: day and month count from 1.
#[derive(Clone, Copy)]
pub struct CalendarDay {
    pub day: u64,
    pub month: u64,
    pub year: u64,
}

// Whole days since day 0 began, and the time of the day; a part is 100 microseconds.
#[derive(Clone, Copy)]
pub struct DayTime {
    pub days: u64,
    pub hour: u64,
    pub minute: u64,
    pub second: u64,
    pub part: u64,
}

#[derive(Clone, Copy)]
pub struct DateTime {
    pub date: CalendarDay,
    pub time: DayTime,
}

// A year and a day of it, counted from 0.
#[derive(Clone, Copy)]
struct YearDay {
    year: u64,
    day: u64,
}

// A month and a day of it, both counted from 0.
#[derive(Clone, Copy)]
struct MonthDay {
    month: u64,
    day: u64,
}

// A fraction of so many digits, with ten digits.
fn ten_digits(fraction: u64, digits: u64) -> u64
    requires { (digits ≤ 10) × (fraction < 10 ^ digits) }
    ensures { (result * 10 ^ digits ≡ fraction * 10 ^ 10) × (result < 10 ^ 10) }
{
    fraction * 10u64.pow(10 - digits as u32)
}

// The start, in milliseconds, that a day count and a fraction of a day give.
pub fn start_of(days: u64, fraction: u64, digits: u64) -> u64
    requires { (days ≤ 99999) × (1 ≤ digits) × (digits ≤ 10) × (fraction < 10 ^ digits) }
    ensures { Start days fraction digits result }
{
    let f = ten_digits(fraction, digits);
    days * DAY_MS + (f * 864 + 50000) / 100000
}

// The fraction of ten digits that stands for a millisecond of a day.
pub fn day_fraction(ms: u64) -> u64
    requires { ms < day_ms }
    ensures { DayFraction ms result × (result < 10 ^ 10) }
{
    (ms * 6250 + 27) / 54
}

// The days of the first months of a year: a row for common years, then one for leap years.
const DAYS_BEFORE: [[u16; 12]; 2] = [
    [0, 31, 59, 90, 120, 151, 181, 212, 243, 273, 304, 334],
    [0, 31, 60, 91, 121, 152, 182, 213, 244, 274, 305, 335],
];

// The days of a year before a month: leap is 0 for a common year and 1 for a leap year, the month counts from 0.
fn days_before(leap: u64, month: u64) -> u64
    requires { (leap < 2) × (month < 12) }
    ensures { result ≡ before leap month }
{
    let i = leap as usize;
    let j = month as usize;
    u64::from(DAYS_BEFORE[i][j])
}

// 1 for a leap year, 0 for a common one.
fn leap_of(year: u64) -> u64
    ensures { result ≡ leap year }
{
    u64::from(year % 4 == 0 && (year % 100 != 0 || year % 400 == 0))
}

// The days from 1899 on before a year: 365 for each year, and 1 for each leap year, of which 460 lie before 1899.
fn days_before_year(year: u64) -> u64
    requires { (1899 ≤ year) × (year ≤ 9999) }
    ensures { result ≡ before_year (year - 1899) }
{
    let past = year - 1;
    (year - 1899) * 365 + past / 4 - past / 100 + past / 400 - 460
}

// The year, and the day of it, that so many days from the beginning of 1899 give. A year has 365 or 366 days, so that
// for fewer than 366 times 365 days a guess by 366 is the year or the one before it.
fn year_of(count: u64) -> YearDay
    requires { count < 366 * 365 }
    ensures { (1899 ≤ result.year) × (count ≡ before_year (result.year - 1899) + result.day) × (result.day < 365 + leap result.year) }
{
    let guess = 1899 + count / 366;
    let next = days_before_year(guess + 1);
    if next <= count {
        return YearDay {
            year: guess + 1,
            day: count - next,
        };
    }
    YearDay {
        year: guess,
        day: count - days_before_year(guess),
    }
}

// The month, and the day of it, of a day of a year. A guess by 31 days a month is the month or the one before it.
fn month_of(leap: u64, day: u64) -> MonthDay
    requires { (leap < 2) × (day < 365 + leap) }
    ensures { (result.month < 12) × (day ≡ before leap result.month + result.day) × (result.day < month_days leap result.month) }
{
    let guess = day / 31;
    if guess < 11 {
        let next = days_before(leap, guess + 1);
        if next <= day {
            return MonthDay {
                month: guess + 1,
                day: day - next,
            };
        }
    }
    MonthDay {
        month: guess,
        day: day - days_before(leap, guess),
    }
}

// The date of a day, counted from 30.12.1899.
pub fn date_of(days: u64) -> CalendarDay
    requires { days ≤ 130000 }
    ensures { Date days result }
{
    let y = year_of(days + 363);
    let m = month_of(leap_of(y.year), y.day);
    CalendarDay {
        day: m.day + 1,
        month: m.month + 1,
        year: y.year,
    }
}

// The days of a month, which counts from 0: those before the next month less those before it. None follows December.
fn month_days(leap: u64, month: u64) -> u64
    requires { (leap < 2) × (month < 12) }
    ensures { result ≡ month_days leap month }
{
    if month == 11 {
        return 31;
    }
    days_before(leap, month + 1) - days_before(leap, month)
}

// Whether a month has so many days. Each has 28, so that for most days of a month its own are not looked up: the table would be laid out twice more.
fn in_month(leap: u64, month: u64, day: u64) -> bool
    requires { (leap < 2) × (month < 12) }
    ensures { Decides (day ≤ month_days leap month) result }
{
    day <= 28 || day <= month_days(leap, month)
}

// What `day_of` gives in a month of the years from 1899 to 2173. The count is from the beginning of 1899, of which 363
// days lie before day 0.
fn day_within(d: CalendarDay) -> Option<u64>
    requires { (1899 ≤ d.year) × (d.year ≤ 2173) × (1 ≤ d.month) × (d.month ≤ 12) }
    ensures { Answers (DayWithin d) result }
{
    let leap = leap_of(d.year);
    let month = d.month - 1;
    if d.day < 1 || !in_month(leap, month, d.day) {
        return None;
    }
    let count = days_before_year(d.year) + days_before(leap, month) + (d.day - 1);
    let days = count.checked_sub(363)?;
    (days <= LAST_DAY).then_some(days)
}

// The day that a date is, counted from 30.12.1899, up to day 99,999; or none, where there is no such date or it lies before
// or after. Day, month and year are any numbers, so that the ranges are tested before anything is counted.
pub fn day_of(d: CalendarDay) -> Option<u64>
    ensures { Answers (DayWithin d) result }
{
    if !(1899..=2173).contains(&d.year) || !(1..=12).contains(&d.month) {
        return None;
    }
    day_within(d)
}

// The time that a start and an offset give, cut down to 100 microseconds.
fn time_of(start: u64, offset: u64) -> DayTime
    requires { (start ≤ start_limit) × (offset ≤ offset_limit) }
    ensures { Time start offset result }
{
    let ticks = (start * 1000 + offset) / 100;
    let seconds = ticks / 10000;
    let minutes = seconds / 60;
    let hours = minutes / 60;
    DayTime {
        days: hours / 24,
        hour: hours % 24,
        minute: minutes % 60,
        second: seconds % 60,
        part: ticks % 10000,
    }
}

// The stamp that a start and an offset give.
pub fn stamp_of(start: u64, offset: u64) -> DateTime
    requires { (start ≤ start_limit) × (offset ≤ offset_limit) }
    ensures { Stamp start offset result }
{
    let time = time_of(start, offset);
    let date = date_of(time.days);
    DateTime { date, time }
}
