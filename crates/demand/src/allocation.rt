// How a key's limit is divided among the nodes of a cluster, by their demand.

ghost use Rattle.std.specs.Prelude.{◌≡◌};
ghost use Rattle.demand.specs.Allocation as Allocation;
ghost use Rattle.questions.specs.Refusals.{answer_of};

use questions::Refusal;

// What a share depends on: the limit of the whole cluster, its size, the part of the limit that goes
// to all nodes alike, and the demand of this node and of all others.
#[derive(Clone, Copy)]
pub struct View {
    pub limit: f64,
    pub cluster_size: usize,
    pub floor_factor: f64,
    pub own: f64,
    pub others: f64,
}

// Question 3: finite and above 0.
pub fn is_rate(x: f64) -> bool
    ensures { result ≡ Allocation.is_rate x }
{
    0.0 < x && float::is_finite(x)
}

// Question 5: from 0 to 1.
pub fn is_floor_factor(x: f64) -> bool
    ensures { result ≡ Allocation.is_floor_factor x }
{
    0.0 <= x && x <= 1.0
}

// Question 7: 1 to 65,535.
#[tactic(auto, unfolding(crate::specs::Allocation::is_cluster_size))]
pub fn is_cluster_size(n: usize) -> bool
    ensures { result ≡ Allocation.is_cluster_size n }
{
    1 <= n && n <= 65_535
}

// The part of the limit, a rate a second, that falls to this node.
pub fn share(view: View) -> Result<f64, Refusal>
    ensures { answer_of result ≡ Allocation.share view }
{
    if !is_rate(view.limit) {
        return Err(Refusal::Rate);
    }
    if !is_floor_factor(view.floor_factor) {
        return Err(Refusal::Factor);
    }
    if !is_cluster_size(view.cluster_size) {
        return Err(Refusal::ClusterSize);
    }
    Ok(shared(view))
}

// An even part of the floor, and of the rest as much as this node's demand is of all demand; where
// there is none, an even part of all.
fn shared(view: View) -> f64
    ensures { result ≡ Allocation.shared view }
{
    let n = float::u64_to_f64(view.cluster_size as u64);
    let even = view.limit / n;
    let total = view.own + view.others;
    if total > 0.0 {
        view.limit * view.floor_factor / n
            + view.limit * (1.0 - view.floor_factor) * (view.own / total)
    } else {
        even
    }
}
