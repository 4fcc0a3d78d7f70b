//! How many tasks and protected objects an image has.
ghost use Rattle.std.specs.Prelude.{◌≡◌, ◌≤◌, length};
ghost use Rattle.base.specs.declared.limits.TheConstants.{OBJECTS, TASKS};

use image::Image;
use image_laws::code_leads_on;

/// The number of tasks.
pub fn task_count(image: &Image) -> u8
    ensures image { result ≡ length image.now.tasks }
    ensures few { result ≤ TASKS }
{
    code_leads_on();
    image.tasks().len() as u8
}

/// The number of protected objects.
pub fn object_count(image: &Image) -> u8
    ensures image { result ≡ length image.now.objects }
    ensures few { result ≤ OBJECTS }
{
    code_leads_on();
    image.objects().len() as u8
}
