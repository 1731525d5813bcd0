//! What has a JSON text, and lists of it.
ghost use Rattle.std.specs.Prelude.{◌≡◌, ◌++◌, false, IfOk, OnOk};
ghost use Rattle.std.specs.List.{All};
ghost use Rattle.std.specs.String.{string_bytes};
ghost use Rattle.serde_json.specs.Data.{Data};
ghost use Rattle.serde_json.specs.Written.{compact_text};
ghost use Rattle.bundle_json.specs.Commas.{with_commas, comma_after};

use std::alloc::AllocError;

/// What has a JSON text.
pub(crate) trait Shown {
    // The value that the text stands for.
    ghost json: { Self → Data };

    // Whether it has a text.
    ghost HasText: { Self → Type 0 };

    /// Writes its text.
    fn show(&self, text: &mut String) -> Result<(), AllocError>
        requires { HasText self.now }
        ensures { OnOk result (string_bytes text.new ≡ string_bytes text.old ++ compact_text (json self.now)) };
}

/// Writes the items of an array, with commas between them. The result stands before a further item.
pub(crate) fn write_items<T: Shown>(
    text: &mut String,
    items: &[T],
) -> Result<&'static str, AllocError>
    requires { All T.HasText items.now }
    ensures written { OnOk result (string_bytes text.new ≡ string_bytes text.old ++ with_commas T.json false items.now) }
    ensures comma { IfOk result (λ comma. comma.now ≡ comma_after items.now) }
{
    let mut comma = "";
    'items: for item in items {
        text.push_str(comma)?;
        item.show(text)?;
        comma = ",";
    }
    Ok(comma)
}
