//! Laws of the fields of an image as JSON. These functions do nothing: their purpose is the contract, which is proved.
ghost use Rattle.field_json.specs.Laws.{HasNoItemIfEqual, ObjectsHaveBytes};

/// The bytes of the objects of a dump, in order, are the bytes that are dumped.
pub fn objects_have_the_bytes()
    ensures { ObjectsHaveBytes }
{}

/// The differences of two images have no item if and only if the images are equal byte for byte.
pub fn equal_images_have_no_item()
    ensures { HasNoItemIfEqual }
{}
