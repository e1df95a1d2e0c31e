// What holds of every mosaic.
ghost use Rattle.oe_mosaic.specs.MosaicLaws.{MosaicsHaveAllLabels};

/// Does nothing. Its contract says that the labels of a mosaic are all labels of its parts and no others, each once and
/// in the order of the dimension, and of bands first those of the first part; this for any parts whose shapes are valid.
pub fn mosaics_have_all_labels()
    ensures { MosaicsHaveAllLabels }
{}
