//! What a program that was laid out leaves for its faults.

ghost use Rattle.compilable_programs.specs.Laws.{LaidImagesHaveRoom};

/// Where an image was laid out and data and stack fit, the program is not too large for the mote.
pub fn laid_images_have_room()
    ensures { LaidImagesHaveRoom }
{}
