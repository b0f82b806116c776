//! The written form of moments.
ghost use Rattle.std.specs.Prelude.{◌≡◌, ◌<◌, ◌+◌, ◌++◌, ◌∷◌, ◌/◌, ◌%◌, codes, pos};
ghost use Rattle.upi_base.specs.Money.{pair_text};
ghost use Rattle.upi_base.specs.Time.{civil_from, date_text, clock_text};

use jiff_core::civil::Date;

// The tens of a number of two digits, as a digit.
fn tens(n: u32) -> u8
    requires { n < 100 }
    ensures { result ≡ 48 + n / 10 }
{
    b'0' + (n / 10) as u8
}

// The ones of a number, as a digit.
fn ones(n: u32) -> u8
    ensures { result ≡ 48 + n % 10 }
{
    b'0' + (n % 10) as u8
}

// The date that comes so many days after 1 January 1970.
#[tactic(auto, using(crate::proofs::Civils::date_is))]
fn date_from(day: u32) -> Date
    requires { day < 2_893_520 }
    ensures year { result.year ≡ pos (civil_from day).year }
    ensures month { result.month ≡ (civil_from day).month }
    ensures day { result.day ≡ (civil_from day).day }
{
    Date::from_unix_epoch_day(i64::from(day)).unwrap()
}

// `YYYY-MM-DD` of the day that comes so many days after 1 January 1970.
pub(crate) fn date_stamp(day: u32) -> [u8; 10]
    requires { day < 2_893_520 }
    ensures { result ≡ date_text (civil_from day) }
{
    let date = date_from(day);
    let year = date.year as u32;
    let month = u32::from(date.month);
    let day = u32::from(date.day);
    [
        tens(year / 100),
        ones(year / 100),
        tens(year % 100),
        ones(year % 100),
        b'-',
        tens(month),
        ones(month),
        b'-',
        tens(day),
        ones(day),
    ]
}

// `hh:mm:ss` of so many seconds after midnight.
pub(crate) fn clock_stamp(second: u32) -> [u8; 8]
    requires { second < 86_400 }
    ensures { result ≡ clock_text second }
{
    let hour = second / 3600;
    let minute = second / 60 % 60;
    [
        tens(hour),
        ones(hour),
        b':',
        tens(minute),
        ones(minute),
        b':',
        tens(second % 60),
        ones(second % 60),
    ]
}
