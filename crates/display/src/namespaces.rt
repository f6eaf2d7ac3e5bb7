// How the namespace of an image is shown.
ghost use Rattle.parts.specs.Handles.{schema_in};
ghost use Rattle.text.specs.Writers.{Adds};
ghost use Rattle.display.specs.Display.{dotted};

use crate::names::names_display;
use parts::handles::Image;
use text::Writer;

// The segments with a `.` between each two.
#[tactic(auto, unfolding(image::specs::Words::bytes))]
pub fn namespace_display(w: &mut Writer<'_>, image: Image<'_>)
    ensures { Adds w.old (dotted (schema_in image.entry).namespace) w.new }
{
    names_display(w, image.namespace(), b".");
}
