//! What the top call's answers promise of a printed image.

ghost use Rattle.nm_driver.specs.Headline.{GeneratedImageRunsItsSource, PrintedImageRunsItsSource};

use mote_text::image_reads_back;

/// Every mote with a printed image does what the application's source allows, on every board, whatever comes in whichever
/// slot, within the printed stack.
pub fn printed_image_runs_its_source()
    ensures { PrintedImageRunsItsSource }
{
    image_reads_back();
}

/// The same of the printed image of an application that is made, whatever files are handed in.
pub fn generated_image_runs_its_source()
    ensures { GeneratedImageRunsItsSource }
{
    image_reads_back();
}
