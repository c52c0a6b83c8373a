// The calls on the float helpers.
use crate::answers::Value;
use crate::calls::Name;
use crate::fields::Args;

// What a call on the helpers answers.
pub(crate) fn value_of(name: Name, args: Args) -> Value {
    let a = float::from_bits(args.first);
    let b = float::from_bits(args.second);
    match name {
        Name::WholeToFloat => Value::Float64(float::u64_to_f64(args.first)),
        Name::FloatToWhole => Value::Whole(float::f64_to_u64(a)),
        Name::Ceil => Value::Float64(float::ceil(a)),
        Name::Round => Value::Float64(float::round(a)),
        Name::Min => Value::Float64(float::min(a, b)),
        Name::Max => Value::Float64(float::max(a, b)),
        Name::TotalCmp => Value::Order(float::total_cmp(args.first, args.second)),
        _ => Value::Unknown,
    }
}
