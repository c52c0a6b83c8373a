// Floats as decimals of the fewest digits that read back to the same float: plain from 0.0001 to
// below 10^16, with an exponent of ten else. Of two such decimals as close the one with the even
// last digit is written, where `{}` of the library takes the upper one.
use std::fmt;
use std::fmt::InlineText;

// Room for any of these decimals.
type Text = InlineText<32>;

// How many digits a decimal has behind its point.
fn places_in(text: Text) -> usize {
    match text.as_str().split_once('.') {
        Some((_, behind)) => behind.find('e').unwrap_or(behind.len()),
        None => 0,
    }
}

// The first of the texts, by how many places each has, that reads back to a float. They begin at the
// library's number of places, as none with fewer reads back; one with seventeen digits does.
fn fewest_places<F: Fn(usize) -> Text + Drop>(x: f64, least: usize, text_of: F) -> Text
    requires { F.IsAlwaysCallable text_of }
{
    for places in least..20 {
        let text = text_of(places);
        if text.as_str().parse::<f64>().is_ok_and(|y| y == x) {
            return text;
        }
    }
    text_of(20)
}

// A float of 64 bits.
#[derive(Clone, Copy)]
pub(crate) struct Float64(pub(crate) f64);

impl fmt::Display for Float64 {
    fn fmt<W: fmt::Write>(&self, f: &mut fmt::Formatter<W>) -> fmt::Result {
        let x = self.0;
        let size = x.abs();
        let is_plain = size == 0.0 || (0.0001 <= size && size < 1e16);
        let text = if is_plain {
            let least = places_in(Text::of(format_args!("{x}")));
            fewest_places(x, least, |places| Text::of(format_args!("{x:.places$}")))
        } else {
            let least = places_in(Text::of(format_args!("{x:e}")));
            fewest_places(x, least, |places| Text::of(format_args!("{x:.places$e}")))
        };
        f.write_str(text.as_str())
    }
}

// A float of 32 bits.
#[derive(Clone, Copy)]
pub(crate) struct Float32(pub(crate) f32);

// The shortest decimal of a float of 32 bits, as a float of 64 bits; nine digits always read back.
fn widened(x: f32) -> f64 {
    for places in places_in(Text::of(format_args!("{x:e}")))..9 {
        let text = Text::of(format_args!("{x:.places$e}"));
        if text.as_str().parse::<f32>().is_ok_and(|y| y == x) {
            return text.as_str().parse().unwrap_or(0.0);
        }
    }
    f64::from(x)
}

impl fmt::Display for Float32 {
    fn fmt<W: fmt::Write>(&self, f: &mut fmt::Formatter<W>) -> fmt::Result {
        Float64(widened(self.0)).fmt(f)
    }
}
