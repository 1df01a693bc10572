use compact_values::{NoMemory, Octets};
use envelope_grammar::{ReadFault, read_requests};
use std::alloc::Global;

/// Whether the text is in the grammar.
fn is_read(alloc: Global, text: &[u8]) -> Result<bool, NoMemory> {
    match read_requests(alloc, text) {
        Ok(_) => Ok(true),
        Err(ReadFault::NotInGrammar) => Ok(false),
        Err(ReadFault::NoMemory) => Err(NoMemory),
    }
}

/// Whether the first SubRequestData has this text, and its first attribute this value.
fn has(alloc: Global, text: &[u8], own: &str, value: &str) -> Result<bool, ReadFault> {
    let requests = read_requests(alloc, text)?;
    let Some(request) = requests.as_slice().first() else {
        return Ok(false);
    };
    let Some(sub) = request.subs.as_slice().first() else {
        return Ok(false);
    };
    let Some(payload) = &sub.payload else {
        return Ok(false);
    };
    match payload.attributes.as_slice().first() {
        Some(attribute) => { Ok(payload.text.as_str() == own && attribute.value.as_str() == value) }
        None => Ok(false),
    }
}

#[test]
fn texts_in_the_grammar(rt: HostRuntime) -> Result<(), NoMemory> {
    for text in [
        b"<Envelope><Body><RequestCollection/></Body></Envelope>".as_slice(),
        b"\xEF\xBB\xBF<?xml version='1.0' encoding='utf-8'?>\r\n<Envelope><Body><RequestCollection/></Body></Envelope>\r\n".as_slice(),
        b"<?xml encoding=\"UTF-8\"?> <Envelope><Body><RequestCollection a='1'\tb = \"2\" a='3' /></Body></Envelope>".as_slice(),
        b"<?xml version=\"1.0\"?><s:Envelope xmlns:s=\"x\"><s:Body><RequestVersion> </RequestVersion><RequestCollection></RequestCollection></s:Body></s:Envelope >".as_slice(),
        b"<E.-_:Envelope><Body><RequestVersion/><RequestCollection><Request/><Request><SubRequest/></Request></RequestCollection></Body></E.-_:Envelope>".as_slice(),
        b"<Envelope><Body><RequestCollection><Request><SubRequest><a>x<b/>y</a><SubRequestData/></SubRequest></Request></RequestCollection></Body></Envelope>".as_slice(),
        // 16 elements in one another are skipped
        b"<Envelope><Body><RequestCollection><Request><SubRequest><a><a><a><a><a><a><a><a><a><a><a><a><a><a><a><a/></a></a></a></a></a></a></a></a></a></a></a></a></a></a></a></SubRequest></Request></RequestCollection></Body></Envelope>".as_slice(),
    ] {
        assert!(rt; is_read(rt.alloc(), text)?);
    }
    Ok(())
}

#[test]
fn texts_outside_the_grammar(rt: HostRuntime) -> Result<(), NoMemory> {
    for text in [
        b"".as_slice(),
        b"<Envelope><Body/></Envelope>".as_slice(),
        b"<Envelope><Body><RequestCollection/></Body></envelope>".as_slice(),
        b"<a:Envelope><Body><RequestCollection/></Body></b:Envelope>".as_slice(),
        b"<Envelope><Body><RequestCollection>x</RequestCollection></Body></Envelope>".as_slice(),
        b"<Envelope><Body><RequestCollection a='1'b='2'/></Body></Envelope>".as_slice(),
        b"<Envelope><Body><RequestCollection a='<'/></Body></Envelope>".as_slice(),
        b"<Envelope><Body><RequestCollection a=1/></Body></Envelope>".as_slice(),
        b"<Envelope><Body><RequestCollection a='&nbsp;'/></Body></Envelope>".as_slice(),
        b"<Envelope><Body><RequestCollection a='&amp'/></Body></Envelope>".as_slice(),
        b"<Envelope><Body><RequestCollection a='&#0x41;'/></Body></Envelope>".as_slice(),
        b"<Envelope><Body><RequestCollection a='&#x110000;'/></Body></Envelope>".as_slice(),
        b"<Envelope><Body><RequestCollection a='&#xD800;'/></Body></Envelope>".as_slice(),
        b"<Envelope><Body><RequestCollection a='\xE2\x82'/></Body></Envelope>".as_slice(),
        b"<Envelope><Body><RequestCollection/><RequestVersion/></Body></Envelope>".as_slice(),
        b"<Envelope><Body><RequestCollection/></Body></Envelope>x".as_slice(),
        b"<Envelope><Body><RequestCollection/></Body></Envelope><a/>".as_slice(),
        b"<!DOCTYPE a><Envelope><Body><RequestCollection/></Body></Envelope>".as_slice(),
        b"<!-- a --><Envelope><Body><RequestCollection/></Body></Envelope>".as_slice(),
        b"<?xml encoding='latin-1'?><Envelope><Body><RequestCollection/></Body></Envelope>".as_slice(),
        b"<?xml?><Envelope><Body><RequestCollection/></Body></Envelope>".as_slice(),
        b"\xEF\xBB\xBF\xEF\xBB\xBF<Envelope><Body><RequestCollection/></Body></Envelope>".as_slice(),
        b"<?xml version='1.0'?>\xEF\xBB\xBF<Envelope><Body><RequestCollection/></Body></Envelope>".as_slice(),
        b"<Envelope/>".as_slice(),
        b"<Envelope><Body><RequestCollection/><RequestCollection/></Body></Envelope>".as_slice(),
        b"<Envelope><Body><RequestVersion>2</RequestVersion><RequestCollection/></Body></Envelope>".as_slice(),
        b"<Envelope><Body><RequestCollection><SubRequest/></RequestCollection></Body></Envelope>".as_slice(),
        b" <?xml version='1.0'?><Envelope><Body><RequestCollection/></Body></Envelope>".as_slice(),
        b"<Envelope><Body><RequestCollection><Request><SubRequest><SubRequestData/><SubRequestData/></SubRequest></Request></RequestCollection></Body></Envelope>".as_slice(),
        b"<Envelope><Body><RequestCollection><Request><SubRequest>x</SubRequest></Request></RequestCollection></Body></Envelope>".as_slice(),
        // 17 elements in one another are too many
        b"<Envelope><Body><RequestCollection><Request><SubRequest><a><a><a><a><a><a><a><a><a><a><a><a><a><a><a><a><a/></a></a></a></a></a></a></a></a></a></a></a></a></a></a></a></a></SubRequest></Request></RequestCollection></Body></Envelope>".as_slice(),
    ] {
        assert!(rt; !is_read(rt.alloc(), text)?);
    }
    Ok(())
}

#[test]
fn values_and_texts(rt: HostRuntime) -> Result<(), ReadFault> {
    for (text, own, value) in [
        (
            b"<Envelope><Body><RequestCollection><Request><SubRequest><SubRequestData A='x'>DAAL</SubRequestData></SubRequest></Request></RequestCollection></Body></Envelope>".as_slice(),
            "DAAL",
            "x",
        ),
        (
            b"<Envelope><Body><RequestCollection><Request><SubRequest><SubRequestData A=\"&lt;&gt;&quot;&apos;&amp;amp;\">D<i>no</i>A &#65;<i/>L</SubRequestData></SubRequest></Request></RequestCollection></Body></Envelope>".as_slice(),
            "DA AL",
            "<>\"'&amp;",
        ),
        (
            b"<Envelope><Body><RequestCollection><Request><SubRequest><SubRequestData A='&#0;&#x20AC;\xE2\x82\xAC\"'>]]&gt;]]></SubRequestData></SubRequest></Request></RequestCollection></Body></Envelope>".as_slice(),
            "]]>]]>",
            "\0\u{20AC}\u{20AC}\"",
        ),
        (
            b"<Envelope><Body><RequestCollection><Request><SubRequest><SubRequestData A=''/></SubRequest></Request></RequestCollection></Body></Envelope>".as_slice(),
            "",
            "",
        ),
    ] {
        assert!(rt; has(rt.alloc(), text, own, value)?);
    }
    Ok(())
}

/// A text of these parts.
fn joined(alloc: Global, parts: &[&[u8]]) -> Result<Octets, NoMemory> {
    let mut text = Octets::new(alloc);
    for part in parts {
        text.extend_from_slice(part)?;
    }
    Ok(text)
}

#[test]
fn attributes_of_an_element(rt: HostRuntime) -> Result<(), NoMemory> {
    for (attribute, is_one) in [
        (b" a='&#x10FFFF;&#xe000;&#55295;'".as_slice(), true),
        (
            b" a='&#0;&#x0;&#0000000000000000000000000000065;'".as_slice(),
            true,
        ),
        (b" a='&#1114112;'".as_slice(), false),
        (b" a='&#xDFFF;'".as_slice(), false),
        (
            b" a='&#99999999999999999999999999999999999999999;'".as_slice(),
            false,
        ),
        (b" a='&#;'".as_slice(), false),
        (b" a='&#x;'".as_slice(), false),
        (b" a='&#X41;'".as_slice(), false),
        (b" a='&#4A;'".as_slice(), false),
        (b" a='&#-1;'".as_slice(), false),
        (b" a='&;'".as_slice(), false),
        (b" a='& '".as_slice(), false),
        (b" a='&AMP;'".as_slice(), false),
        (b" a='&amp ;'".as_slice(), false),
        (b" a='&copy;'".as_slice(), false),
        (b" a=']]>\x01\x7F\"'".as_slice(), true),
        (b" a=\"'\"".as_slice(), true),
        (b" a='''".as_slice(), false),
        (b" a='".as_slice(), false),
        (b" a".as_slice(), false),
        (b" ='b'".as_slice(), false),
        (b" a='b'a='c'".as_slice(), false),
        (b" a='b' a='c'".as_slice(), true),
        (b" a:b='c' _.-9:A='d'".as_slice(), true),
        (b" a:b:c='d'".as_slice(), false),
        (b" :a='b'".as_slice(), false),
        (b" a:='b'".as_slice(), false),
        (b" 1a='b'".as_slice(), false),
        (b" -a='b'".as_slice(), false),
        (b" \xC3\xA4='b'".as_slice(), false),
        (b" a='\xC3\xA4\xF4\x8F\xBF\xBF'".as_slice(), true),
        (b" a='\xC3'".as_slice(), false),
        (b" a='\xC0\x80'".as_slice(), false),
        (b" a='\xED\xA0\x80'".as_slice(), false),
        (b" a='\xF4\x90\x80\x80'".as_slice(), false),
        (b" a='\xEF\xBB\xBF'".as_slice(), true),
        (b"\xEF\xBB\xBF a='b'".as_slice(), false),
    ] {
        let text = joined(
            rt.alloc(),
            &[
                b"<Envelope><Body><RequestCollection".as_slice(),
                attribute,
                b"/></Body></Envelope>".as_slice(),
            ],
        )?;
        assert!(rt; is_read(rt.alloc(), text.as_slice())? == is_one);
    }
    Ok(())
}

#[test]
fn contents_of_data(rt: HostRuntime) -> Result<(), NoMemory> {
    for (content, is_one) in [
        (b"a]]>b&#65;\x01\xC3\xA4".as_slice(), true),
        (b"<a/>b<c d='e'>f<g>h</g></c>".as_slice(), true),
        (b"<SubRequestData/>".as_slice(), true),
        (b"<a>&nbsp;</a>".as_slice(), false),
        (b"<a b='&nbsp;'/>".as_slice(), false),
        (b"<a></b>".as_slice(), false),
        (b"<a></x:a>".as_slice(), false),
        (b"<a>".as_slice(), false),
        (b"</a>".as_slice(), false),
        (b"< a/>".as_slice(), false),
        (b"<a/ >".as_slice(), false),
        (b"<!-- a -->".as_slice(), false),
        (b"<![CDATA[a]]>".as_slice(), false),
        (b"<?a b?>".as_slice(), false),
        (b"&".as_slice(), false),
        (b"\xC3<a/>\xA4".as_slice(), false),
        (b"\xC3".as_slice(), false),
    ] {
        let text = joined(
            rt.alloc(),
            &[
                b"<Envelope><Body><RequestCollection><Request><SubRequest><SubRequestData>".as_slice(),
                content,
                b"</SubRequestData></SubRequest></Request></RequestCollection></Body></Envelope>".as_slice(),
            ],
        )?;
        assert!(rt; is_read(rt.alloc(), text.as_slice())? == is_one);
    }
    Ok(())
}

/// An element with an attribute in which so many letters stand between these.
fn long(alloc: Global, front: &[u8], count: usize, back: &[u8]) -> Result<Octets, NoMemory> {
    let mut text = joined(
        alloc,
        &[b"<Envelope><Body><RequestCollection ".as_slice(), front],
    )?;
    for _ in 0..count {
        text.push(b'a')?;
    }
    for part in [back, b"/></Body></Envelope>".as_slice()] {
        text.extend_from_slice(part)?;
    }
    Ok(text)
}

#[test]
fn lengths_of_names_and_values(rt: HostRuntime) -> Result<(), NoMemory> {
    for (front, count, back, is_one) in [
        (b"".as_slice(), 256, b"='b'".as_slice(), true),
        (b"".as_slice(), 257, b"='b'".as_slice(), false),
        (b"".as_slice(), 256, b":b='c'".as_slice(), true),
        (b"".as_slice(), 257, b":b='c'".as_slice(), false),
        (b"b:".as_slice(), 256, b"='c'".as_slice(), true),
        (b"b:".as_slice(), 257, b"='c'".as_slice(), false),
        (b"a='".as_slice(), 4096, b"'".as_slice(), true),
        (b"a='".as_slice(), 4097, b"'".as_slice(), false),
        // a reference counts as it is written
        (b"a='&amp;".as_slice(), 4091, b"'".as_slice(), true),
        (b"a='&amp;".as_slice(), 4092, b"'".as_slice(), false),
    ] {
        let text = long(rt.alloc(), front, count, back)?;
        assert!(rt; is_read(rt.alloc(), text.as_slice())? == is_one);
    }
    Ok(())
}
