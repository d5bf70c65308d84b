// Draws in closing hours (request #106): the weekday of a date, a centre's weekly plan of windows that allow draws, and the wait for the
// first allowed minute. Every function equals a definition of specs/. Nothing is assumed.
// A plan is 28 bytes: for each weekday from Monday the start and the end minute of its window, two bytes each, big-endian.

#![tactic(auto)]

ghost use Rattle.std.specs.Prelude.{◌≡◌, true, ◌≤◌, ◌<◌, ◌^◌, IfOk};
ghost use Rattle.counts.specs.Limits.{day_minutes, week_minutes};
ghost use Rattle.counts.specs.Refused.{given_in};
ghost use Rattle.schedule.specs.Calendar as C;
ghost use Rattle.schedule.specs.Hours as W;

use counts::refusal::Refusal;

// A weekly plan.
pub type Plan = [u8; counts::sizes::PLAN];

// A date, and a minute of its day.
#[derive(Clone, Copy)]
pub struct Time {
    pub year: u64,
    pub month: u64,
    pub day: u64,
    pub minute: u64,
}

// Whether a year is a leap year.
fn leap(year: u64) -> bool
    ensures { result ≡ C.leap year }
{
    ((year % 4 == 0) & (year % 100 != 0)) | (year % 400 == 0)
}

// The days of a month, from 1, of a year.
fn month_days(year: u64, month: u64) -> u64
    ensures { (result ≡ C.month_days year month) × (result ≤ 31) }
{
    if month == 2 {
        if leap(year) {
            return 29;
        }
        return 28;
    }
    if (month == 4) | (month == 6) | (month == 9) | (month == 11) {
        return 30;
    }
    31
}

// The days of the first months of a year, so many of them.
fn days_of_months(year: u64, months: u64) -> u64
    requires { months ≤ 12 }
    ensures { (result ≡ C.days_of_months year months) × (result ≤ 372) }
{
    let mut days: u64 = 0;
    for i in 0..months {
        days += month_days(year, i + 1);
    }
    days
}

impl Time {
    // Whether the date is one of 1 January 2000 to 31 December 2099, and the minute one of a day.
    pub fn fits(self) -> bool
        ensures { result ≡ C.time_fits self.year self.month self.day self.minute }
    {
        let days = month_days(self.year, self.month);
        (2000 <= self.year)
            & (self.year <= 2099)
            & (1 <= self.month)
            & (self.month <= 12)
            & (1 <= self.day)
            & (self.day <= days)
            & (self.minute <= counts::limits::LAST_MINUTE)
    }

    // The weekday of the date, 0 for Monday to 6 for Sunday.
    fn weekday(self) -> usize
        requires { (2000 ≤ self.year) × (self.year ≤ 2099) × (1 ≤ self.month) × (self.month ≤ 12) × (1 ≤ self.day) × (self.day ≤ 31) }
        ensures { (result ≡ C.weekday self.year self.month self.day) × (result < 7) }
    {
        let years = self.year - 2000;
        let months = days_of_months(self.year, self.month - 1);
        let days = years * 365 + (years + 3) / 4 + months + (self.day - 1);
        ((days + 5) % 7) as usize
    }
}

// The start minute of a weekday's window.
fn start_of(plan: &Plan, w: usize) -> u64
    requires { w < 7 }
    ensures { (result ≡ W.start_of plan.now w) × (result < 2 ^ 16) }
{
    octets::be::<2>(plan, 4 * w)
}

// The end minute of a weekday's window.
fn end_of(plan: &Plan, w: usize) -> u64
    requires { w < 7 }
    ensures { result ≡ W.end_of plan.now w }
{
    octets::be::<2>(plan, 4 * w + 2)
}

// Whether every minute of a plan is one of a day.
pub fn plan_fits(plan: &Plan) -> bool
    ensures { result ≡ W.plan_fits plan.now }
{
    let mut fits = true;
    for w in 0..7 {
        fits = fits
            & ((start_of(plan, w) <= counts::limits::LAST_MINUTE)
                & (end_of(plan, w) <= counts::limits::LAST_MINUTE));
    }
    fits
}

// Whether minute `m` of a day is in the window from `s` to `e` of that day.
fn own(s: u64, e: u64, m: u64) -> bool
    ensures { result ≡ W.own s e m }
{
    (s <= m) & ((m < e) | (e < s))
}

// Whether minute `m` of a day is in the window from `s` to `e` of the day before.
fn over(s: u64, e: u64, m: u64) -> bool
    ensures { result ≡ W.over s e m }
{
    (e < s) & (m < e)
}

// Whether minute `m` of weekday `w` is in a window.
fn in_window(plan: &Plan, w: usize, m: u64) -> bool
    requires { w < 7 }
    ensures { result ≡ W.allowed plan.now w m }
{
    let v = (w + 6) % 7;
    own(start_of(plan, w), end_of(plan, w), m) | over(start_of(plan, v), end_of(plan, v), m)
}

// The wait from minute `m` of weekday `w`: none where that minute is allowed, else until the first window that starts later, which is one of
// the eight from this day on.
fn wait_from(plan: &Plan, w: usize, m: u64) -> u64
    requires { (w < 7) × (m < day_minutes) × (W.plan_fits plan.now ≡ true) }
    ensures { (result ≡ W.wait_from plan.now w m) × (result ≤ week_minutes) }
{
    if in_window(plan, w, m) {
        return 0;
    }
    for k in 0..8 {
        let v = (w + k) % 7;
        let s = start_of(plan, v);
        let at = counts::limits::DAY_MINUTES * k as u64 + s;
        if (s != end_of(plan, v)) & (m < at) {
            return at - m;
        }
    }
    counts::limits::WEEK_MINUTES
}

// Whether this very minute is in a window, for a date and a minute that fit.
pub fn allowed(plan: &Plan, time: Time) -> bool
    requires { C.time_fits time.year time.month time.day time.minute ≡ true }
    ensures { result ≡ W.allowed_at plan.now time.year time.month time.day time.minute }
{
    in_window(plan, time.weekday(), time.minute)
}

// The minutes to wait for the first allowed one, 10,080 where the plan allows none. Refuses a time that does not fit, then a plan of another length, then
// one that does not fit.
pub fn wait(plan: &[u8], time: Time) -> Result<u64, Refusal>
    ensures value { given_in result ≡ W.wait_call plan.now time.year time.month time.day time.minute }
    ensures minutes { IfOk result (λ n. n ≤ week_minutes) }
{
    if !time.fits() {
        return Err(Refusal::BadTime);
    }
    let Some(plan) = plan.as_array::<28>() else {
        return Err(Refusal::WrongLength);
    };
    if !plan_fits(plan) {
        return Err(Refusal::OutOfLimits);
    }
    Ok(wait_from(plan, time.weekday(), time.minute))
}
