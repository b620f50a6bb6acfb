// Matching a rule's left side with a slip as texts that were just read, so that nothing is tested that reading has tested: one field of
// each is built at a time, and none behind the first that fails.
ghost use Rattle.std.specs.Prelude.{◌≡◌};
ghost use Rattle.match_rules.specs.Answers.{comparison_on};
ghost use Rattle.match_rules.specs.texts.Texts.{side_fields, slip_fields};

use crate::{Comparison, Match};
use match_fields::bindings::Filling;

// How the fields of the one text match those of the other, and how many of the slip's items were compared.
#[tactic(auto, using(crate::proofs::texts::Texts::text_fields))]
pub fn compare_texts(rule: &[u8], slip: &[u8]) -> Comparison
    ensures { result ≡ comparison_on (side_fields rule.now) (slip_fields slip.now) }
{
    let n = text_passes::field_count(rule);
    if text_passes::field_count(slip) != n {
        return crate::no_comparison();
    }
    let mut v = crate::no_values();
    let mut runs = crate::no_runs();
    let mut compared: usize = 0;
    for j in 0..n {
        let f = text_passes::field_in(rule, j);
        let w = text_passes::field_in(slip, j);
        let p = match_fields::match_field(f, w, v);
        compared += p.compared;
        let Ok(values) = p.tested else {
            return Comparison {
                found: crate::no_match(),
                compared,
            };
        };
        v = values;
        crate::run_field(j, f, w, &mut runs);
    }
    let found = Match {
        yes: true,
        filling: Filling { values: v, runs },
    };
    Comparison { found, compared }
}
