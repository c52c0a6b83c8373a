// The calls on a lone hot set, which the script's calls make and change. It is updated and read over
// words and over entries: where the two differ the answer is `?`.
use crate::answers::{Answer, Done, Value};
use crate::calls::Name;
use crate::fields::Args;
use crate::{answers, entries};
use hot::hot_set::{HotSet, Updated};
use questions::Refusal;

// The hot set of the script, once one is made.
pub(crate) type Hot = Option<HotSet>;

// The value that both forms answer.
fn agreed<T: PartialEq + Copy>(
    of_words: Result<T, Refusal>,
    of_entries: Result<T, Refusal>,
) -> Value
where
    Value: From<T>,
{
    if of_words == of_entries {
        Value::of(of_words)
    } else {
        Value::Unknown
    }
}

// By its fields, since the library's type has no `==`.
fn is_same(a: HotSet, b: HotSet) -> bool {
    a.cooldown == b.cooldown && a.max_size == b.max_size && a.len == b.len
}

// The answer of an update, and the set after it.
fn of_update(answer: Result<Updated, Refusal>, set: HotSet) -> (Result<bool, Refusal>, HotSet) {
    match answer {
        Err(question) => (Err(question), set),
        Ok(updated) => (Ok(updated.is_hot), updated.set),
    }
}

// The answer to a call that reads the hot set: whether the key is hot, whether it is primary, since
// when it is hot, and how many keys are.
pub(crate) fn answer(args: Args, hot: Hot, table: &[u64]) -> Answer {
    let Some(set) = hot else {
        return answers::one(Value::NoState);
    };
    let key = args.first;
    let beside = entries::entries_of(table);
    Answer {
        first: agreed(set.is_hot(table, key), hot_lent::is_hot(set, &beside, key)),
        second: agreed(
            set.is_primary(table, key),
            hot_lent::is_primary(set, &beside, key),
        ),
        third: agreed(
            set.hot_since(table, key),
            hot_lent::hot_since(set, &beside, key),
        ),
        fourth: agreed(set.len(table), hot_lent::len(set, &beside)),
    }
}

// An update over words, and one over entries, which is to answer the same and leave the same set and
// records.
fn update(args: Args, set: HotSet, table: &mut [u64]) -> Done<Hot> {
    let key = args.first;
    let demand_rate = float::from_bits(args.second);
    let threshold = float::from_bits(args.third);
    let now = args.fourth;
    let hot_elsewhere = args.fifth == 1;
    let mut beside = entries::entries_of(table);
    let (of_entries, set_beside) = of_update(
        hot_lent::update_with(
            set,
            &mut beside,
            key,
            demand_rate,
            threshold,
            now,
            hot_elsewhere,
        ),
        set,
    );
    let (of_words, set_after) = of_update(
        set.update_with(table, key, demand_rate, threshold, now, hot_elsewhere),
        set,
    );
    let value = if is_same(set_after, set_beside) && entries::are_in(&beside, table) {
        agreed(of_words, of_entries)
    } else {
        Value::Unknown
    };
    Done::said(value, Some(set_after))
}

// A call that makes or changes the hot set.
pub(crate) fn change(name: Name, args: Args, hot: Hot, table: &mut [u64]) -> Done<Hot> {
    if name == Name::HotNew {
        return answers::made(HotSet::new(table, args.first, args.second as usize), hot);
    }
    match hot {
        None => Done::said(Value::NoState, hot),
        Some(set) => update(args, set, table),
    }
}
