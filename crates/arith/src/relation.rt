// The six relations. Twice, since over PartialOrd the promise would be of partial_cmp, and not of each comparison by IEEE 754.
ghost use Rattle.std.specs.Prelude.{◌≡◌};
ghost use Rattle.arith.specs.Relations.{integer_relation, real_relation};

use sheet::operation::Relation;

pub fn integers_stand(relation: Relation, x: i32, y: i32) -> bool
    ensures { result ≡ integer_relation relation x y }
{
    match relation {
        Relation::Equal => x == y,
        Relation::Unequal => x != y,
        Relation::Less => x < y,
        Relation::LessOrEqual => x <= y,
        Relation::Greater => x > y,
        Relation::GreaterOrEqual => x >= y,
    }
}

// As IEEE 754 compares: -0 equals 0.
pub fn reals_stand(relation: Relation, x: f64, y: f64) -> bool
    ensures { result ≡ real_relation relation x y }
{
    match relation {
        Relation::Equal => x == y,
        Relation::Unequal => x != y,
        Relation::Less => x < y,
        Relation::LessOrEqual => x <= y,
        Relation::Greater => x > y,
        Relation::GreaterOrEqual => x >= y,
    }
}
