//! Days and their texts: what a field's bytes say as a day number, and the text of a day number. The calendar is
//! that of the crate jiff; the definition is `day_of_text` (specs/Days.antt).

ghost use Rattle.std.specs.Prelude.{◌≡◌, ◌<◌, ◌+◌, ◌∷◌, ◌++◌, [], pos, true, Some};
ghost use Rattle.jiff_core.specs.Date.{epoch_day};
ghost use Rattle.jiff_fmt.specs.Text.{pad2, pad4};
ghost use Rattle.hv_value.specs.Civil.{text_of_day};
ghost use Rattle.hv_value.specs.Days.{IsTextOfDay, day_of_date, day_of_text, has_date_form, is_day_number};

use crate::number::number_of;
use jiff_core::civil::Date;

/// Whether a text has ten bytes, with a dash after the fourth and after the seventh.
fn has_date_form(text: &[u8]) -> bool
    ensures { result ≡ has_date_form text.now }
{
    text.len() == 10 && text[4] == b'-' && text[7] == b'-'
}

/// The day number of a year from 1 to 9999, a month and a day, where the calendar has that day.
fn day_of_date(year: u64, month: u64, day: u64) -> Option<i32>
    ensures { result ≡ day_of_date year month day }
{
    if year < 1 || year > 9999 || month > 12 || day > 31 {
        return None;
    }
    match Date::new(year as i16, month as i8, day as i8) {
        Ok(date) => Some(date.to_unix_epoch_day()),
        Err(_) => None,
    }
}

/// The day number that a field writes as `YYYY-MM-DD`: ten bytes, all of them ASCII digits but the dashes, a year
/// from 0001 to 9999, and a day that exists. `None` for every other text. It takes no memory.
#[tactic(auto, unfolding(crate::specs::Days::day_of_text))]
pub fn day_of(text: &[u8]) -> Option<i32>
    ensures { result ≡ day_of_text text.now }
{
    if !has_date_form(text) {
        return None;
    }
    day_of_date(
        number_of(&text[0..4])?,
        number_of(&text[5..7])?,
        number_of(&text[8..10])?,
    )
}

/// The date of a day number.
fn date_of(day: i32) -> Date
    requires { is_day_number day ≡ true }
    ensures { epoch_day result ≡ day }
{
    Date::from_unix_epoch_day(i64::from(day)).unwrap()
}

/// The year of a date that has a day number, which is from 1 on.
fn year_of(date: &Date) -> u16
    requires { is_day_number (epoch_day date.now) ≡ true }
    ensures { date.now.year ≡ pos result }
{
    date.year as u16
}

/// A digit below 10.
fn digit(n: u16) -> u8
    requires { n < 10 }
    ensures { result ≡ 48 + n }
{
    b'0' + n as u8
}

/// The text `YYYY-MM-DD` of a year below 10000, a month and a day below 100.
fn text_of_date(year: u16, month: u8, day: u8) -> [u8; 10]
    requires year { year < 10000 }
    requires month { month < 100 }
    requires day { day < 100 }
    ensures { result ≡ pad4 year ++ 45 ∷ [] ++ pad2 month ++ 45 ∷ [] ++ pad2 day }
{
    [
        digit(year / 100 / 10),
        digit(year / 100 % 10),
        digit(year % 100 / 10),
        digit(year % 100 % 10),
        b'-',
        digit(u16::from(month) / 10),
        digit(u16::from(month) % 10),
        b'-',
        digit(u16::from(day) / 10),
        digit(u16::from(day) % 10),
    ]
}

/// The text `YYYY-MM-DD` of a day number, -719162 to 2932896. It takes no memory.
pub fn date_text(day: i32) -> [u8; 10]
    requires { is_day_number day ≡ true }
    ensures text { IsTextOfDay day result }
    ensures value { result ≡ text_of_day day }
    ensures reads_back { day_of_text result ≡ Some day }
{
    let date = date_of(day);
    text_of_date(year_of(&date), date.month, date.day)
}
