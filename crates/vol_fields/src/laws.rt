//! Laws about the definitions of fields. These functions do nothing: their purpose is the contract, which is proved.
ghost use Rattle.vol_fields.specs.Laws.{CoversImage, FollowsLayout, PartsImage, TellsEachByte, TellsNothingIfEqual};
ghost use Rattle.vol_fields.specs.Rows.{RowsHaveBytes};

/// The parts of an image have all its bytes.
pub fn parts_cover_the_image()
    ensures { CoversImage }
{}

/// Each byte of an image is in exactly one field, and the bytes of a field are consecutive.
pub fn fields_part_the_image()
    ensures { PartsImage }
{}

/// Parts and fields are where the layout stores them.
pub fn fields_follow_the_layout()
    ensures { FollowsLayout }
{}

/// The bytes of the rows of a dump, in order, are the bytes that are dumped.
pub fn rows_have_the_bytes()
    ensures { RowsHaveBytes }
{}

/// The differences of two images have no line if and only if the images are equal byte for byte.
pub fn differences_tell_nothing_if_equal()
    ensures { TellsNothingIfEqual }
{}

/// Each byte that differs is in a field of a line.
pub fn differences_tell_each_byte()
    ensures { TellsEachByte }
{}
