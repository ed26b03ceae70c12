// What a search has found when it ends.
ghost use Rattle.std.specs.Prelude.{◌≡◌, ℕ, ◌≤◌, ℤ, pos, List, length, Option, Some};
ghost use Rattle.shunt_store.specs.defs.Files.{BothTold};
ghost use Rattle.shunt_base.specs.declared.duals.Case.{Case as OneCase};
ghost use Rattle.shunt_instance.specs.defs.Instance.{Night, IsInstance};
ghost use Rattle.shunt_blocks.specs.declared.records.Block.{Block as OneBlock};
ghost use Rattle.shunt_blocks.specs.defs.Lists.{total_cost};
ghost use Rattle.shunt_plan.specs.declared.records.Plan.{Plan as OnePlan};
ghost use Rattle.shunt_proof.specs.declared.records.Node.{Node as OneNode};
ghost use Rattle.shunt_proof.specs.declared.records.Version.{Version};
ghost use Rattle.shunt_proof.specs.defs.Certificates.{case_total};
ghost use Rattle.shunt_search.specs.declared.search_state.Search.{Search as OneSearch};
ghost use Rattle.shunt_search.specs.defs.Conditions.{IsPlanFor, IsTidy};
ghost use Rattle.shunt_search.specs.defs.SearchStates.{IsSearch};
ghost use Rattle.shunt_search.specs.defs.Endings.{IsLeft, IsDone, IsEnd};

use crate::laws::all_plans;
use crate::search_state::Search;
use crate::steadiness::walks_stay_steady;
use crate::walk_stack::{give_up, walks_go_on};
use shunt_proof::laws::{best_costs, starts};
use shunt_proof::version_laws::{proved_by_version, trees_by_version};

/// The bound of what is left isn't negative, and with it the nodes and a tidy plan that costs no more than the best that is known meet the
/// conditions.
pub(crate) fn searches_end()
    ensures natural { (version : Version) (night : Night) (pins : List OneBlock)
        (stock : List (List OneCase)) (told : Option (List OneNode)) (number owned : ℕ)
        (s : OneSearch) (bound : ℤ) → IsInstance night
        → IsSearch version night pins stock told number owned s.waiting.items s
        → IsLeft s.waiting.items s.low bound → (b : ℕ) × (bound ≡ pos b) }
    ensures end { (version : Version) (night : Night) (pins : List OneBlock)
        (stock : List (List OneCase)) (told : Option (List OneNode)) (number owned most b : ℕ)
        (s : OneSearch) (plan : OnePlan) → IsInstance night
        → IsSearch version night pins stock told number owned s.waiting.items s
        → IsLeft s.waiting.items s.low (pos b) → IsPlanFor night pins plan → IsTidy night pins plan
        → total_cost night plan.blocks ≤ s.known.cost → number ≤ most → most ≤ 5000
        → IsDone number most s.waiting.items s.known.cost s.low
        → IsEnd version night pins most number plan b told }
{
    walks_go_on();
    walks_stay_steady();
    trees_by_version();
    starts();
    best_costs();
    proved_by_version();
    all_plans();
}

/// A search has come to its nodes, whoever keeps them.
pub(crate) fn searches_kept()
    ensures { (version : Version) (night : Night) (pins : List OneBlock)
        (stock : List (List OneCase)) (told now : Option (List OneNode)) (nodes : List OneNode)
        (number owned : ℕ) (s : OneSearch) → IsSearch version night pins stock (Some nodes)
        (length nodes) (case_total nodes) s.waiting.items s
        → BothTold told now (λ old new. new ≡ nodes) → number ≡ length nodes → owned
        ≡ case_total nodes → IsSearch version night pins stock now number owned s.waiting.items s }
{}

/// The low bound of a search.
fn low_bound(search: &Search) -> i64
    ensures { result ≡ search.now.low }
{
    search.low
}

/// The least of the low bound and of the bounds that are left.
fn left_bound(search: &Search) -> i64
    ensures { IsLeft search.now.waiting.items search.now.low result }
{
    let least = low_bound(search);
    give_up(&search.waiting, least)
}

/// The same, which isn't negative.
pub(crate) fn bound_left(search: &Search) -> u64
    requires { (low : ℤ) → IsLeft search.now.waiting.items search.now.low low
        → (b : ℕ) × (low ≡ pos b) }
    ensures { IsLeft search.now.waiting.items search.now.low (pos result) }
{
    let low = left_bound(search);
    low as u64
}
