//! The laws of tables at the table of waybills.

ghost use Rattle.std.specs.Prelude.{ℕ, List};
ghost use Rattle.wire_fields.specs.Refusal.{ExactlyOne};
ghost use Rattle.wire_fields.specs.Reading.{IsOctets};
ghost use Rattle.waybill.specs.Table.{waybill};

use wire_fields::laws::Table;

/// Names the table of waybills with at most three items before the last.
pub struct Bills;

impl Table for Bills {
    ghost use Rattle.waybill.specs.declared.fault.Cause.{Cause};
    ghost use Rattle.waybill.specs.Table.{Bill, waybill};

    ghost Cause = { Cause };

    ghost Value = { Bill };

    ghost fields = { waybill 3 };
}

/// Of each text a front spells a waybill, or the text is refused at one place for one reason.
pub fn exactly_one()
    ensures { (text : List ℕ) → IsOctets text → ExactlyOne (waybill 3) text }
{
    wire_fields::laws::exactly_one::<Bills>();
}
