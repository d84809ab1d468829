use ak_member::Members;
use ak_reach::Rows;
use std::marker::Model;

/// What a version shows of a history: the members and tombstones, and whom the observers found unreachable.
#[derive(Drop)]
pub struct View {
    pub members: Members,
    pub rows: Rows,
}

impl Model for View {
    ghost use Rattle.ak_member.specs.View as shown;
    ghost use Rattle.ak_member.specs.View.{coded_view};

    ghost Value = { shown.View };

    ghost coded = { coded_view };

    ghost view = { λ v. record { standings = v.members; rows = v.rows } };
}
