mod attempts;
mod declarations;
mod owned_texts;
mod texts_kept;
