// The script's hot set as entries. The calls over entries run beside those over words.
use hot::hot_set::HotEntry;

// The entries of the first 64 records of a table.
pub(crate) fn entries_of(table: &[u64]) -> [HotEntry; 64] {
    let mut entries = [HotEntry::of_record([0; HotEntry::WORDS]); 64];
    let (records, _) = table.as_chunks::<{ HotEntry::WORDS }>();
    for (entry, record) in entries.iter_mut().zip(records) {
        *entry = HotEntry::of_record(*record);
    }
    entries
}

// Whether the first records of a table are those of the entries.
pub(crate) fn are_in(entries: &[HotEntry], table: &[u64]) -> bool {
    let (records, _) = table.as_chunks::<{ HotEntry::WORDS }>();
    for (entry, record) in entries.iter().zip(records) {
        if entry.words() != *record {
            return false;
        }
    }
    true
}
