// Whether the namespaces of two images are equal.
ghost use Rattle.std.specs.Prelude.{◌≡◌};
ghost use Rattle.parts.specs.Handles.{schema_in};
ghost use Rattle.rules.specs.Equal.{same_names};

use crate::names::same_names;
use parts::handles::Image;

// Whether two images have the same segments, in order.
pub fn namespaces_equal(a: Image<'_>, b: Image<'_>) -> bool
    ensures { result ≡ same_names (schema_in a.entry).namespace (schema_in b.entry).namespace }
{
    same_names(a.namespace(), b.namespace())
}
