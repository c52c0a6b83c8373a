// The calls of a script: their names and the kinds of their fields.
use crate::fields;
use crate::fields::Args;
use text::lines::Kind;

// A call by what it does: first those that change something, then those that read, and those that
// stand alone.
#[derive(Clone, Copy, PartialEq, Eq)]
pub(crate) enum Name {
    HotNew,
    HotUpdate,
    NewPeers,
    Report,
    Forget,
    Leave,
    Expire,
    Lend,
    New,
    Ticks,
    Cap,
    Check,
    CheckIn,
    Record,
    Tick,
    Traced,
    Checks,
    Save,
    Load,
    LoadHex,
    Reload,
    Dump,
    HotGet,
    Get,
    Total,
    Elsewhere,
    PeersLen,
    PeersEmpty,
    Totals,
    Elsewheres,
    Rates,
    Quota,
    Limit,
    HotSince,
    IsHot,
    Tracked,
    NewQuota,
    NewFactor,
    TrackedKeys,
    HotKeys,
    Config,
    HotDemand,
    MostDenied,
    MostShadow,
    WholeToFloat,
    FloatToWhole,
    Ceil,
    Round,
    Min,
    Max,
    TotalCmp,
    QuotaNew,
    QuotaPerSecond,
    QuotaUnpack,
    QuotaRate,
    QuotaPack,
    QuotaCeiling,
    GcraCheck,
    GcraSet,
    GcraDebt,
    GcraRetry,
    Step,
    DemandTick,
    DemandRecord,
    DemandUnbiased,
    Decay,
    Share,
    Newer,
    Stale,
}

// A line's call and its arguments.
#[derive(Clone, Copy)]
pub(crate) struct Call {
    pub(crate) name: Name,
    pub(crate) args: Args,
}

// How a call is spelled, a letter for each of its fields, and its name.
#[derive(Clone, Copy)]
struct Row(&'static [u8], &'static [u8], Name);

const ROWS: [Row; 69] = [
    Row(b"l.hnew", b"uu", Name::HotNew),
    Row(b"l.hupd", b"uddub", Name::HotUpdate),
    Row(b"newpeers", b"", Name::NewPeers),
    Row(b"report", b"uuuihc", Name::Report),
    Row(b"forget", b"u", Name::Forget),
    Row(b"leave", b"uuu", Name::Leave),
    Row(b"expire", b"uu", Name::Expire),
    Row(b"lend", b"uuuuuu", Name::Lend),
    Row(b"new", b"didduuuuu", Name::New),
    Row(b"ticks", b"uu", Name::Ticks),
    Row(b"cap", b"e", Name::Cap),
    Row(b"check", b"uuu", Name::Check),
    Row(b"checkin", b"udiuu", Name::CheckIn),
    Row(b"record", b"uuuudiuu", Name::Record),
    Row(b"tick", b"uu", Name::Tick),
    Row(b"traced", b"udi", Name::Traced),
    Row(b"checks", b"uuc", Name::Checks),
    Row(b"save", b"u", Name::Save),
    Row(b"load", b"", Name::Load),
    Row(b"loadhex", b"", Name::LoadHex),
    Row(b"reload", b"", Name::Reload),
    Row(b"dump", b"", Name::Dump),
    Row(b"l.hget", b"u", Name::HotGet),
    Row(b"get", b"uu", Name::Get),
    Row(b"total", b"u", Name::Total),
    Row(b"elsewhere", b"u", Name::Elsewhere),
    Row(b"plen", b"", Name::PeersLen),
    Row(b"pempty", b"", Name::PeersEmpty),
    Row(b"totals", b"uc", Name::Totals),
    Row(b"elsewheres", b"uc", Name::Elsewheres),
    Row(b"rates", b"u", Name::Rates),
    Row(b"quota", b"u", Name::Quota),
    Row(b"limit", b"u", Name::Limit),
    Row(b"hotsince", b"u", Name::HotSince),
    Row(b"ishot", b"u", Name::IsHot),
    Row(b"tracked", b"u", Name::Tracked),
    Row(b"newquota", b"diu", Name::NewQuota),
    Row(b"newfactor", b"u", Name::NewFactor),
    Row(b"ntracked", b"", Name::TrackedKeys),
    Row(b"nhot", b"", Name::HotKeys),
    Row(b"config", b"", Name::Config),
    Row(b"hotdemand", b"u", Name::HotDemand),
    Row(b"mostdenied", b"uu", Name::MostDenied),
    Row(b"mostshadow", b"uu", Name::MostShadow),
    Row(b"l.u2f", b"u", Name::WholeToFloat),
    Row(b"l.f2u", b"d", Name::FloatToWhole),
    Row(b"l.ceil", b"d", Name::Ceil),
    Row(b"l.round", b"d", Name::Round),
    Row(b"l.min", b"dd", Name::Min),
    Row(b"l.max", b"dd", Name::Max),
    Row(b"l.totcmp", b"dd", Name::TotalCmp),
    Row(b"l.quotanew", b"ii", Name::QuotaNew),
    Row(b"l.persec", b"di", Name::QuotaPerSecond),
    Row(b"l.unpack", b"u", Name::QuotaUnpack),
    Row(b"l.ratepersec", b"ui", Name::QuotaRate),
    Row(b"l.pack", b"ui", Name::QuotaPack),
    Row(b"l.ceiling", b"uiu", Name::QuotaCeiling),
    Row(b"l.gcheck", b"uiou", Name::GcraCheck),
    Row(b"l.gset", b"uiouiu", Name::GcraSet),
    Row(b"l.gdebt", b"uiou", Name::GcraDebt),
    Row(b"l.gretry", b"uiou", Name::GcraRetry),
    Row(b"l.step", b"uuu", Name::Step),
    Row(b"l.dtick", b"duoouu", Name::DemandTick),
    Row(b"l.drec", b"duoouu", Name::DemandRecord),
    Row(b"l.dunb", b"duoou", Name::DemandUnbiased),
    Row(b"l.decay", b"uu", Name::Decay),
    Row(b"l.share", b"duddd", Name::Share),
    Row(b"l.newer", b"hh", Name::Newer),
    Row(b"l.stale", b"u", Name::Stale),
];

// Whether a list, a shadow limit or an image follows the fields of a call.
fn goes_on(name: Name) -> bool {
    matches!(
        name,
        Name::Traced | Name::Checks | Name::LoadHex | Name::Report | Name::Totals | Name::Elsewheres
    )
}

// The row of a word, if it has one.
fn row_of(word: &[u8]) -> Option<Row> {
    for row in &ROWS {
        if row.0 == word {
            return Some(*row);
        }
    }
    None
}

// Whether a line gets no answer: it is empty or a comment.
pub(crate) fn is_skipped(kind: Kind, line: &[u8]) -> bool {
    kind == Kind::Whole && (line.is_empty() || line[0] == b'#')
}

// The call that came, if it is one: the fields are good and end the line, or more follows them. A
// line that is too long is none.
pub(crate) fn call_of(kind: Kind, line: &[u8]) -> Option<Call> {
    if kind == Kind::TooLong {
        return None;
    }
    let end = text::index_of(line, b' ');
    let Row(_, kinds, name) = row_of(&line[..end])?;
    let args = fields::args_of(line, end.saturating_add(1), kinds)?;
    if line.len() < args.next || goes_on(name) {
        Some(Call { name, args })
    } else {
        None
    }
}
