// What elements weigh, against a limit.
ghost use Rattle.std.specs.Prelude.{◌≡◌, ◌-◌, nat_lt, true, sum_by, if◌then◌else◌, Some, None};
ghost use Rattle.std.specs.List.{list_all};
ghost use Rattle.doc_model.specs.rules.Weights.{weight_of};
ghost use Rattle.plain_core.specs.Weighing.{all_few, what_is_left};
ghost use Rattle.doc_model.specs.rules.Sound.{part_weight};

use doc_model::{Element, Part, weight};

/// What is left of a weight after these elements, None where they weigh more.
pub fn weigh(elements: &[Element], limit: u128) -> Option<u128>
    requires { all_few elements.now ≡ true }
    ensures { result ≡ what_is_left limit (weight_of elements.now) }
{
    let mut left = limit;
    for element in elements {
        let own = weight(element);
        if left < own {
            return None;
        }
        left -= own;
    }
    Some(left)
}

/// What is left of a weight after the elements of these uploads, None where they weigh more.
pub fn weigh_parts(parts: &[Part], limit: u128) -> Option<u128>
    requires { list_all (λ p. all_few p.elements) parts.now ≡ true }
    ensures { result ≡ what_is_left limit (sum_by part_weight parts.now) }
{
    let mut left = limit;
    for part in parts {
        left = weigh(part.elements.as_slice(), left)?;
    }
    Some(left)
}
