// The head of an image: the layout number, the plate's numbers and its label bytes, written when the image is made and then only read.
ghost use Rattle.std.specs.Prelude.{◌≡◌, true, ◌≤◌, length};
ghost use Rattle.meaning.specs.Bytes.{put};
ghost use Rattle.meaning.specs.State.{plate_ok};
ghost use Rattle.line.specs.Line.{plate_of};
ghost use Rattle.image.specs.Image.{image_length, is_ours, plate_of_head, head_of};

use crate::layout::{
    BITS, CORE, LABEL, LAYOUT, LAYOUT_NUMBER, LENGTH, PAUSE, PLATE_ADDRESS, TICKS, TOTAL,
};
use line::Plate;
use wire::codes::LABEL_LENGTH;

// R1 of another length or another layout, before anything else is read.
#[tactic(auto, unfolding(crate::specs::Image::is_ours))]
pub fn is_ours(image: &[u8]) -> bool
    ensures { result ≡ is_ours image.now }
{
    image.len() == LENGTH && image[LAYOUT] == LAYOUT_NUMBER
}

#[tactic(auto, unfolding(crate::specs::Image::plate_of_head))]
pub fn plate_in(image: &[u8]) -> Plate
    requires { image_length ≤ length image.now }
    ensures { result ≡ plate_of_head image.now }
{
    Plate {
        total: u32::from(image[TOTAL]),
        bits: u32::from(image[BITS]),
        address: u32::from(image[PLATE_ADDRESS]),
        ticks: u32::from(image[TICKS]),
        pause: u32::from(image[PAUSE]),
    }
}

// A possible plate's numbers are bytes. The label goes by an array, whose length is known, so that it is copied in a few steps.
pub fn put_head(plate: Plate, label: &[u8], image: &mut [u8])
    requires possible_plate { plate_ok (plate_of plate label.now) ≡ true }
    requires whole_image { image_length ≤ length image.old }
    ensures { image.new ≡ put image.old 0 (head_of (plate_of plate label.now)) }
{
    let numbers = [
        LAYOUT_NUMBER,
        plate.total as u8,
        plate.bits as u8,
        plate.address as u8,
        plate.ticks as u8,
        plate.pause as u8,
    ];
    wire::fill(&numbers, image);
    let mut bytes = [0u8; LABEL_LENGTH];
    wire::fill(&label[0..LABEL_LENGTH], &mut bytes);
    wire::fill(&bytes, &mut image[LABEL..CORE]);
}
