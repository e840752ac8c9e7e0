//! The encodings RUNLENGTH and BYTEDICT of a column's values.
#![tactic(auto)]

mod dictionary;
mod dictionary_decode;
mod dictionary_encode;
mod dictionary_head;
mod dictionary_item;
mod dictionary_known;
mod dictionary_places;
mod runlength;
mod runlength_texts;
mod runlength_times;

pub use dictionary::{
    bytedict_has_one_form, bytedict_texts_have_one_form, decode_bytedict, decode_bytedict_texts,
    encode_bytedict, encode_bytedict_texts,
};
pub use runlength::{decode_runlength, encode_runlength, runlength_has_one_form};
pub use runlength_texts::{
    decode_runlength_texts, encode_runlength_texts, runlength_texts_have_one_form,
};

#[cfg(test)]
mod dictionary_tests;
#[cfg(test)]
mod runlength_tests;
